//! Laws of the definitions: each is the contract of a function that does nothing.
ghost use Rattle.std.specs.Prelude.{◌≡◌, ◌≤◌, ◌+◌, ◌++◌, ◌∷◌, [], ℕ, List, true};
ghost use Rattle.tk_core.specs.Lists.{total};
ghost use Rattle.tk_page.specs.Figures.{wide_of};
ghost use Rattle.tk_page.specs.Html.{text, place_of, begins_with_tag};
ghost use Rattle.tk_page.specs.Samples.{nothing};
ghost use Rattle.tk_page.specs.Picture.{high_of, part_box, part_high, split_of};
ghost use Rattle.tk_page.specs.Strips.{box_of, busy_height, steps_of, wait_height, waited_in};
ghost use Rattle.tk_page.specs.Within.{IsWithin, Rises};
ghost use Rattle.tk_page.specs.declared.figures.Scale.{Scale};
ghost use Rattle.tk_page.specs.declared.frame.TheConstants.{HEAD, TAIL};
ghost use Rattle.tk_page.specs.declared.blame.Charge.{Charge};
ghost use Rattle.tk_page.specs.declared.picture.Split.{Split};
ghost use Rattle.tk_page.specs.declared.picture.Whom.{Whom};
ghost use Rattle.tk_page.specs.declared.picture.Whom.TheVariants as parts;
ghost use Rattle.tk_page.specs.declared.sample.Sample.{Sample};
ghost use Rattle.tk_page.specs.declared.sample.Step.{Step};
ghost use Rattle.tk_page.specs.declared.boxes.Boxes.{Boxes};

/// After the head of a page a reader of HTML stands between tags, not in a tag, in a value, or in a style or a script. The end of a page begins
/// with a tag, and closes what it opens.
pub fn the_frame_stands_around_text()
    ensures head { place_of HEAD.now ≡ text }
    ensures begins { begins_with_tag TAIL.now ≡ true }
    ensures ends { place_of TAIL.now ≡ text }
{}

/// Each box of a strip stays within it, which is as wide as the page's time and 22 units high, and each box of the picture of who waited for whom
/// within that, which is 60 units high. The busy and the waiting share of a step take no more than the 16 units that are theirs. In the picture
/// the parts of a step, those that waited for the first place, for the second and all others, are together as high as the step.
pub fn boxes_stay_within()
    ensures strip { (scale : Scale) (kind : Boxes) (step : Step) → IsWithin (wide_of scale) 22 (box_of scale kind step) }
    ensures heights { (step : Step) → busy_height step + wait_height step ≤ 16 }
    ensures picture { (scale : Scale) (top : ℕ) (whom : Whom) (split : Split) → IsWithin (wide_of scale) 60 (part_box scale top whom split) }
    ensures parts { (top : ℕ) (first second : List Charge) (step : Step)
        → part_high top parts.First (split_of first second step) + part_high top parts.Second (split_of first second step)
        + part_high top parts.Rest (split_of first second step) ≡ high_of top (waited_in step) }
{}

/// What a task did in the steps of its course adds up to what it has come to at their end, of each number that doesn't fall and that
/// stays as it is if no time passed.
pub fn steps_add_up()
    ensures busy { (born : ℕ) (samples : List Sample) (last : Sample) → Rises (λ s. s.busy) (nothing born) (samples ++ last ∷ [])
        → total (λ (step : Step). step.busy) (steps_of born samples last) ≡ last.busy }
    ensures sched { (born : ℕ) (samples : List Sample) (last : Sample) → Rises (λ s. s.sched) (nothing born) (samples ++ last ∷ [])
        → total (λ (step : Step). step.sched) (steps_of born samples last) ≡ last.sched }
    ensures wakes { (born : ℕ) (samples : List Sample) (last : Sample) → Rises (λ s. s.wakes) (nothing born) (samples ++ last ∷ [])
        → total (λ (step : Step). step.wakes) (steps_of born samples last) ≡ last.wakes }
    ensures own { (born : ℕ) (samples : List Sample) (last : Sample) → Rises (λ s. s.own) (nothing born) (samples ++ last ∷ [])
        → total (λ (step : Step). step.own) (steps_of born samples last) ≡ last.own }
{}
