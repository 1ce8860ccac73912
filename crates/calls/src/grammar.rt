// Which options a program has.
ghost use Rattle.std.specs.Prelude.{◌≡◌};

// How many values stand behind an option.
#[derive(Clone, Copy, PartialEq, Eq)]
pub enum Takes {
    Nothing,
    Value,
}

// The words of a program, by its options.
#[derive(Clone, Copy, PartialEq, Eq)]
pub enum Grammar {
    Count,
    Check,
}

impl Grammar {
    ghost use Rattle.calls.specs.Parts.{takes_of};

    // What the option of this name takes, where there is one.
    pub fn takes(self, name: &str) -> Option<Takes>
        ensures { result ≡ takes_of self name.now }
    {
        if name == "--help" || name == "--version" {
            return Some(Takes::Nothing);
        }
        let valued = match self {
            Grammar::Count => name == "--sheet" || name == "--drawn",
            Grammar::Check => false,
        };
        if valued { Some(Takes::Value) } else { None }
    }
}
