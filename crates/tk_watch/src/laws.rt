//! Laws of the definitions: each is the contract of a function that does nothing.
ghost use Rattle.std.specs.Prelude.{◌≡◌, ◌++◌, ℕ, List, true};
ghost use Rattle.std.specs.List.{list_all};
ghost use Rattle.tk_watch.specs.Keyed.{Coming, is_no_key, standing, text_at};
ghost use Rattle.tk_watch.specs.declared.drawing.Screen.{Screen as Screens};

/// In a pause the screen stays as it is, whatever comes but keys: it says at most how far it lies behind.
pub fn paused_screens_stay()
    ensures { (screen : Screens) (events more : List Coming) → (standing screen events).asked.paused ≡ true → list_all is_no_key more ≡ true
        → (behind : ℕ) → text_at behind screen (standing screen (events ++ more)) ≡ text_at behind screen (standing screen events) }
{}
