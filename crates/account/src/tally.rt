// The calls that a sheet is asked for, counted by what they answer.
ghost use Rattle.std.specs.Prelude.{◌≡◌};
ghost use Rattle.account.specs.Tallies.{answered, one_posted, no_calls};

// How many calls were granted and how many refused, and how many columns were posted. A post is a call too, so it is among the granted.
// A count past what the number holds stays at the greatest.
#[derive(Clone, Copy)]
pub struct Tally {
    pub granted: u32,
    pub refused: u32,
    pub posted: u32,
}

impl Tally {
    pub fn new() -> Tally
        ensures { result ≡ no_calls }
    {
        Tally {
            granted: 0,
            refused: 0,
            posted: 0,
        }
    }

    // Counts a call by its answer, which is handed on as it is.
    pub fn answered<T, E>(&mut self, answer: Result<T, E>) -> Result<T, E>
        ensures answer { result ≡ answer }
        ensures counted { self.new ≡ answered answer self.old }
    {
        match &answer {
            Ok(_) => self.granted = self.granted.saturating_add(1),
            Err(_) => self.refused = self.refused.saturating_add(1),
        }
        answer
    }

    // Counts a column that was posted.
    pub fn posted(&mut self)
        ensures { self.new ≡ one_posted self.old }
    {
        self.posted = self.posted.saturating_add(1);
    }
}
