//! Laws of the definitions: each is the contract of a function that does nothing.
ghost use Rattle.std.specs.Prelude.{◌≡◌, ℕ, List, take, map, true};
ghost use Rattle.std.specs.List.{list_all};
ghost use Rattle.tk_screen.specs.declared.top.Ranked.{Ranked};
ghost use Rattle.tk_screen.specs.Rankings.{IsRanking, kept, ranking};
ghost use Rattle.tk_screen.specs.Screens.{drawn, is_printable};

/// A ranking of items is one: keys never rise, and the items of one key keep their order.
pub fn ranking_ranks()
    ensures { (items : List Ranked) → IsRanking items (ranking items) }
{}

/// What is kept of items that are offered one by one is the front of the ranking of all of them.
pub fn top_is_the_front()
    ensures { (room : ℕ) (items : List Ranked) → kept room items ≡ take room (ranking items) }
{}

/// Whatever a text holds, each of its bytes is drawn as printable ASCII, so none becomes a code of the terminal.
pub fn texts_hold_no_code()
    ensures { (text : List ℕ) → list_all is_printable (map drawn text) ≡ true }
{}
