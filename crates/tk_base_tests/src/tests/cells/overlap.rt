//! No lock is held through a call: while one call computes its step, another call on the same ledger is answered.
ghost use Rattle.std.specs.Prelude.{◌≡◌, ◌-◌, ◌+◌, ◌==◌, [], ◌∷◌, true, false, Some, None, length, slice_index};
ghost use Rattle.std.specs.Arc.{arc_value};
ghost use Rattle.tk_cell.specs.Roles.{IsOwner};

use std::marker::{Model, PhantomData};
use std::sync::atomic::{AtomicBool, Ordering};
use std::sync::{Arc, Wait};
use std::test::*;
use std::thread;
use std::thread::{Threads, join};
use tk_cell::{Shared, Token};
use tk_core::Sequential;

// How often a thread looks for the flag that it waits for.
const TURNS: u32 = 1_000_000;

/// What the two threads show one another.
#[derive(Drop)]
struct Flags {
    started: AtomicBool,
    answered: AtomicBool,
    late: AtomicBool,
}

/// A call: it counts one use, and may be held up inside its step.
#[derive(Clone, Copy)]
struct Use<'a> {
    flags: &'a Flags,
    waits: bool,
}

/// A door that counts its uses. A use is answered how many there were before it; the first one makes caller 1.
#[derive(Clone, Copy)]
struct Door<'a> {
    uses: u64,
    of: PhantomData<&'a u8>,
}

impl<'a> Sequential for Door<'a> {
    ghost use Rattle.tk_base_tests.specs.Uses.{capped, first_number, first_is_new};
    ghost use Rattle.std.proofs.Common.{sym};

    type Call = Use<'a>;

    type Reply = u64;

    ghost meaning = { record {
      words = λ row. row.uses ∷ 0 ∷ 0 ∷ 0 ∷ 0 ∷ 0 ∷ 0 ∷ 0 ∷ 0 ∷ 0 ∷ 0 ∷ 0 ∷ 0 ∷ 0 ∷ 0 ∷ 0 ∷ [];
      IsOpening = λ row. row.uses ≡ 0;
      row_after = λ opening calls. record opening { uses = capped (length calls) };
      reply_after = λ opening calls call. capped (length calls);
      number = first_number;
      owner_may = λ call. true;
      made_may = λ made call. true;
      is_last = λ call. false;
    } };

    fn to_words(&self) -> [u64; 16] {
        [self.uses, 0, 0, 0, 0, 0, 0, 0, 0, 0, 0, 0, 0, 0, 0, 0]
    }

    fn from_words(words: &[u64; 16]) -> Option<Door<'a>> {
        let row = Door::decode(words);
        if row.to_words() == *words {
            Some(row)
        } else {
            None
        }
    }

    fn decode(words: &[u64; 16]) -> Door<'a> {
        Door {
            uses: words[0],
            of: PhantomData,
        }
    }

    fn step(&self, call: Use<'a>) -> (Door<'a>, u64) {
        if call.waits {
            hold_up(call.flags);
        }
        let next = Door {
            uses: self.uses.saturating_add(1),
            of: PhantomData,
        };
        (next, self.uses)
    }

    fn reads_only(_call: Use<'a>) -> bool {
        false
    }

    ghost told_apart = { λ a b long e i. record { uses = slice_index (e i) 0; of = a.of } };

    ghost begins = { λ opening is i. record { uses = sym is i; of = opening.of } };

    ghost numbers_are_new = { λ opening calls call n is e. first_is_new calls n e };
}

// Waits until the flag is up, and notes where it didn't come up in so many turns.
fn wait_for(flag: &AtomicBool, late: &AtomicBool) {
    for _ in 0..TURNS {
        if flag.load(Ordering::SeqCst) {
            return;
        }
        thread::yield_now();
    }
    late.store(true, Ordering::SeqCst);
}

// Says that the step has begun, and waits for the other thread's answer.
fn hold_up(flags: &Flags) {
    flags.started.store(true, Ordering::SeqCst);
    wait_for(&flags.answered, &flags.late);
}

/// What one thread has: a token, and a call that it may make.
#[derive(Drop)]
struct Guest<O: Sequential> {
    shared: Arc<Shared<O>>,
    token: Token<O>,
    call: O::Call,
}

impl<O: Sequential> Model for Guest<O> {
    ghost use Rattle.std.specs.Prelude.{◌≡◌, true, false};
    ghost use Rattle.std.specs.Arc.{arc_value};
    ghost use Rattle.tk_core.specs.Legal.{may_call, has_ended};
    ghost use Rattle.tk_cell.specs.Views.{Known};

    ghost Value = { Known O O.Call O.Reply };

    ghost view = { λ g. g.token };

    ghost invariant = { λ g. (g.token.ledger ≡ arc_value g.shared) × (may_call O.meaning g.token.view.seen g.token.view.caller g.call ≡ true)
        × (has_ended O.meaning g.token.view.seen g.token.view.caller ≡ false) };
}

fn make_call<O: Sequential, R: Wait>(rt: &R, guest: Guest<O>) -> O::Reply {
    let Guest {
        shared,
        mut token,
        call,
    } = guest;
    let reply = shared.call(rt, &mut token, call);
    drop(shared);
    drop(token);
    reply
}

// Begins once the other thread's step has begun, and says that its call was answered.
fn call_after<'a, R: Wait>(rt: &R, guest: Guest<Door<'a>>) -> u64 {
    let flags = guest.call.flags;
    wait_for(&flags.started, &flags.late);
    let before = make_call(rt, guest);
    flags.answered.store(true, Ordering::SeqCst);
    before
}

fn call_both<'a, R: Wait + Threads + Sync>(
    rt: &R,
    one: Guest<Door<'a>>,
    two: Guest<Door<'a>>,
) -> (u64, u64) {
    join(rt, move || make_call(rt, one), move || call_after(rt, two))
}

// The first use makes caller 1, who is the second guest.
fn two_guests<'a, R: Wait>(
    rt: &R,
    shared: Arc<Shared<Door<'a>>>,
    owner: Token<Door<'a>>,
    flags: &'a Flags,
) -> Option<(Guest<Door<'a>>, Guest<Door<'a>>)>
    requires own { owner.ledger ≡ arc_value shared }
    requires owner { IsOwner ⟦<Door<'a> as Sequential>⟧.meaning owner.view }
{
    let mut token = owner;
    let quick = Use {
        flags,
        waits: false,
    };
    let slow = Use { flags, waits: true };
    let Ok(theirs) = Arc::try_clone(&shared) else {
        drop(shared);
        drop(token);
        return None;
    };
    match shared.call(rt, &mut token, quick) {
        0 => {
            let other = shared.split(&mut token, 1);
            let one = Guest {
                shared,
                token,
                call: slow,
            };
            let two = Guest {
                shared: theirs,
                token: other,
                call: quick,
            };
            Some((one, two))
        }
        _ => {
            drop(shared);
            drop(theirs);
            drop(token);
            None
        }
    }
}

#[test]
fn a_call_is_answered_inside_another(rt: HostRuntime) -> Result<(), Fail> {
    let flags = Flags {
        started: AtomicBool::new(false),
        answered: AtomicBool::new(false),
        late: AtomicBool::new(false),
    };
    let door = Door {
        uses: 0,
        of: PhantomData,
    };
    let (shared, owner) = Shared::new(&rt, rt.alloc(), door)?;
    let (one, two) = two_guests(&rt, shared, owner, &flags).ok_or("no second guest")?;
    // The second thread's use came first, though the first one's step had begun before it.
    let answers = call_both(&rt, one, two);
    assert!(rt; answers == (2, 1) && !flags.late.load(Ordering::SeqCst));
    Ok(())
}
