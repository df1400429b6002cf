// What a check answers. The words on places in a list, in specs/, have no code of their own: std's `Option` says whether there is one.
#![tactic(auto)]

ghost use Rattle.std.specs.Prelude.{◌≡◌};
ghost use Rattle.places.specs.Words.{failed};

// Whether a check passed: 01, The shape of each place. A `Result` would name the refusal twice, here and where let .. else returns it.
#[derive(Clone, Copy)]
pub enum Verdict {
    Passed,
    Failed,
}

impl Verdict {
    // Fails where the refusal's test holds.
    pub fn unless(refused: bool) -> Verdict
        ensures { failed result ≡ refused }
    {
        if refused {
            Verdict::Failed
        } else {
            Verdict::Passed
        }
    }
}
