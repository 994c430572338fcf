use crate::number::{is_number_in, value};

/// An option, which sets a limit.
#[derive(Clone, Copy, Debug, PartialEq, Eq)]
pub enum Limit {
    /// Head steps of one head form.
    Fuel,
    /// Levels of one conversion.
    Depth,
    /// The order of the machine's moves.
    Order,
}

impl Limit {
    ghost use Rattle.std.specs.Prelude.{◌≡◌, ◌≤◌, option_map, IfSome, true};
    ghost use Rattle.command_line.specs.Limit.{default, is_value, least, limit_named, limit_of, most};

    /// The option of this name, which begins with `--`.
    pub fn named(name: &str) -> Option<Limit>
        ensures { result ≡ limit_named name.now }
    {
        match name {
            "--fuel" => Some(Limit::Fuel),
            "--depth" => Some(Limit::Depth),
            "--order" => Some(Limit::Order),
            _ => None,
        }
    }

    fn least(self) -> u64
        ensures { result ≡ least self }
    {
        match self {
            Limit::Fuel | Limit::Depth => 1,
            Limit::Order => 0,
        }
    }

    fn most(self) -> u64
        ensures { result ≡ most self }
    {
        match self {
            Limit::Fuel => 1_000_000,
            Limit::Depth => 2_000,
            Limit::Order => u64::MAX,
        }
    }

    /// The limit where the option is left out.
    fn default(self) -> u64
        ensures { result ≡ default self }
    {
        match self {
            Limit::Fuel => 100_000,
            Limit::Depth => 1_000,
            Limit::Order => 0,
        }
    }

    /// Whether the option takes this value.
    pub fn takes(self, text: &str) -> bool
        ensures { result ≡ is_value self text.now }
    {
        is_number_in(text, self.least(), self.most())
    }

    /// The limit, by the option's value, which is none where the option is left out.
    pub fn of(self, text: Option<&str>) -> u64
        requires { IfSome text (λ t. is_value self t.now ≡ true) }
        ensures value { result ≡ limit_of self (option_map (λ t. t.now) text.entry) }
        ensures most { result ≤ most self }
    {
        match text {
            Some(text) => value(text),
            None => self.default(),
        }
    }
}
