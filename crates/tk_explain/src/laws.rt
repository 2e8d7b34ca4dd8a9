//! What is known of the lines that are kept: each is the contract of a function that does nothing.
ghost use Rattle.std.specs.Prelude.{◌≡◌, ◌≤◌, ◌<◌, ◌-◌, ◌^◌, ℕ, List};
ghost use Rattle.std.specs.List.{concat};
ghost use Rattle.tk_explain.specs.Keeping.{kept_of};
ghost use Rattle.tk_explain.specs.Telling.{line_after};

/// In whatever pieces a stream came, a line of it that stands after those that ended before what is kept is found there, by its place.
pub fn a_kept_line_is_the_streams()
    ensures { (pieces : List (List ℕ)) (lines : ℕ) → (kept_of pieces).before ≤ lines → lines < 2 ^ 64 - 1
        → line_after (concat pieces) lines ≡ line_after (kept_of pieces).bytes (lines - (kept_of pieces).before) }
{}
