// What a call asks for.
ghost use Rattle.std.specs.Prelude.{◌≡◌};
ghost use Rattle.calls.specs.Asking.{asks_of};

// What the program says of itself, or what it is there for.
#[derive(Clone, Copy)]
pub enum Call<R> {
    Help,
    Version,
    Run(R),
}

// Which of these the words so far ask for.
#[derive(Clone, Copy)]
pub enum Asks {
    Help,
    Version,
    Run,
}

impl Asks {
    // What a flag that every program has asks for.
    pub(crate) fn of(flag: &str) -> Option<Asks>
        ensures { result ≡ asks_of flag.now }
    {
        if flag == "--help" {
            Some(Asks::Help)
        } else if flag == "--version" {
            Some(Asks::Version)
        } else {
            None
        }
    }
}
