// What the words of a saved file are.
ghost use Rattle.std.specs.Prelude.{◌≡◌};
ghost use Rattle.saved_head.specs.Kind.{kind_for, number_of, is_ciphertexts, is_packed, is_unknown};

// A number of no kind is kept: such a file is refused. Stays: no Option: a program prints the number.
#[derive(Clone, Copy, Debug, PartialEq, Eq)]
pub enum Kind {
    SecretKey,
    SignedSecretKey,
    SwitchingKey,
    PublicKey,
    Ciphertexts,
    Packed,
    Messages,
    Unknown(u32),
}

impl Kind {
    // Ciphertexts of one message each.
    pub fn is_ciphertexts(self) -> bool
        ensures { result ≡ is_ciphertexts self }
    {
        matches!(self, Kind::Ciphertexts)
    }

    // One mask with several bodies.
    pub fn is_packed(self) -> bool
        ensures { result ≡ is_packed self }
    {
        matches!(self, Kind::Packed)
    }

    pub fn is_unknown(self) -> bool
        ensures { result ≡ is_unknown self }
    {
        matches!(self, Kind::Unknown(_))
    }
}

// The number that a file gives it.
impl From<Kind> for u32 {
    ghost from_gives = { λ kind number. number ≡ number_of kind };

    fn from(kind: Kind) -> u32 {
        match kind {
            Kind::SecretKey => 1,
            Kind::SignedSecretKey => 2,
            Kind::SwitchingKey => 3,
            Kind::PublicKey => 4,
            Kind::Ciphertexts => 5,
            Kind::Packed => 6,
            Kind::Messages => 7,
            Kind::Unknown(number) => number,
        }
    }
}

impl From<u32> for Kind {
    ghost from_gives = { λ number kind. kind ≡ kind_for number };

    fn from(number: u32) -> Kind {
        match number {
            1 => Kind::SecretKey,
            2 => Kind::SignedSecretKey,
            3 => Kind::SwitchingKey,
            4 => Kind::PublicKey,
            5 => Kind::Ciphertexts,
            6 => Kind::Packed,
            7 => Kind::Messages,
            _ => Kind::Unknown(number),
        }
    }
}
