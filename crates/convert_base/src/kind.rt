//! The part that a span plays.
ghost use Rattle.std.specs.Prelude.{◌≡◌};
ghost use Rattle.convert_base.specs.Numbers.{kind_of, kind_number};

/// The part that a span plays.
#[derive(Clone, Copy)]
pub enum Kind {
    Internal,
    Server,
    Client,
    Producer,
    Consumer,
}

impl Kind {
    /// The kind that a word of a record names.
    pub fn of(word: &str) -> Option<Kind>
        ensures { result ≡ kind_of word.now }
    {
        match word {
            "internal" => Some(Kind::Internal),
            "server" => Some(Kind::Server),
            "client" => Some(Kind::Client),
            "producer" => Some(Kind::Producer),
            "consumer" => Some(Kind::Consumer),
            _ => None,
        }
    }

    /// The number of the kind in the OpenTelemetry protocol.
    pub fn number(self) -> u8
        ensures { result ≡ kind_number self }
    {
        match self {
            Kind::Internal => 1,
            Kind::Server => 2,
            Kind::Client => 3,
            Kind::Producer => 4,
            Kind::Consumer => 5,
        }
    }
}
