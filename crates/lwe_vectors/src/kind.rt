// What a record tells of: one call each, in the order of the numbers from 1 that the file gives them.

use crate::record::{Record, WORDED};
use lwe_secret_key::LweSecretKeyRef;

// A secret key of words, or of signed numbers.
#[derive(Clone, Copy)]
pub(crate) enum Form {
    Encoded,
    Signed,
}

impl Form {
    // The key of a record: words a or signed numbers d.
    pub(crate) fn key<'a>(self, record: &Record<'a>) -> LweSecretKeyRef<'a> {
        match self {
            Form::Encoded => LweSecretKeyRef::Encoded(record.a),
            Form::Signed => LweSecretKeyRef::Signed(record.d),
        }
    }
}

#[derive(Clone, Copy)]
pub(crate) enum Kind {
    Dimension,
    EncryptionParameters,
    Parameters,
    TallySum,
    Mark,
    Sum,
    Sample,
    EncryptEncoded(Form),
    Phase(Form),
    EncryptMessage(Form),
    DecryptMessage(Form),
    PackEncoded,
    PackedPhases,
    BatchPhases,
    PackMessages,
    PackedMessages,
    EncryptBatch,
    BatchMessages,
    PublicKey(Form),
    PublicEncoded,
    PublicMessage,
    SwitchParameters,
    SwitchingKey(Form),
    Switch,
    SwitchBatch,
    Entry,
    Saved,
    Total(Form),
}

impl TryFrom<u32> for Kind {
    type Error = u32;

    // Another number is no kind.
    fn try_from(number: u32) -> Result<Kind, u32> {
        Ok(match number {
            1 => Kind::Dimension,
            2 => Kind::EncryptionParameters,
            3 => Kind::Parameters,
            4 => Kind::TallySum,
            5 => Kind::Mark,
            6 => Kind::Sum,
            7 => Kind::Sample,
            8 => Kind::EncryptEncoded(Form::Encoded),
            9 => Kind::EncryptEncoded(Form::Signed),
            10 => Kind::Phase(Form::Encoded),
            11 => Kind::Phase(Form::Signed),
            12 => Kind::EncryptMessage(Form::Encoded),
            13 => Kind::EncryptMessage(Form::Signed),
            14 => Kind::DecryptMessage(Form::Encoded),
            15 => Kind::DecryptMessage(Form::Signed),
            16 => Kind::PackEncoded,
            17 => Kind::PackedPhases,
            18 => Kind::BatchPhases,
            19 => Kind::PackMessages,
            20 => Kind::PackedMessages,
            21 => Kind::EncryptBatch,
            22 => Kind::BatchMessages,
            23 => Kind::PublicKey(Form::Encoded),
            24 => Kind::PublicKey(Form::Signed),
            25 => Kind::PublicEncoded,
            26 => Kind::PublicMessage,
            27 => Kind::SwitchParameters,
            28 => Kind::SwitchingKey(Form::Encoded),
            29 => Kind::SwitchingKey(Form::Signed),
            30 => Kind::Switch,
            31 => Kind::SwitchBatch,
            32 => Kind::Entry,
            33 => Kind::Saved,
            34 => Kind::Total(Form::Encoded),
            35 => Kind::Total(Form::Signed),
            other => return Err(other),
        })
    }
}

impl Kind {
    // Its call is lent errors, which may be words.
    fn takes_errors(self) -> bool {
        matches!(
            self,
            Kind::EncryptEncoded(_)
                | Kind::EncryptMessage(_)
                | Kind::PackEncoded
                | Kind::PackMessages
                | Kind::EncryptBatch
                | Kind::PublicKey(_)
                | Kind::PublicEncoded
                | Kind::PublicMessage
                | Kind::SwitchingKey(_)
                | Kind::Total(_)
        )
    }

    // The kind of a number, the same for either form of the errors; none for a number that names no kind.
    pub(crate) fn named(number: u32) -> Option<Kind> {
        let kind = Kind::try_from(number % WORDED).ok()?;
        (number < WORDED || kind.takes_errors()).then_some(kind)
    }
}
