// What encryption is set up with. The constructors judge it at once; every call judges it again, with what it is lent.
ghost use Rattle.std.specs.Prelude.{◌≡◌};
ghost use Rattle.check_order.specs.Judged.{JudgesSizes};
ghost use Rattle.lwe_parameters.specs.Answers.{phases_in, phases_of, decryption_of, judged_rows};
ghost use Rattle.lwe_parameters.specs.Answers.{phase_parameters_rows, decryption_parameters_rows};
ghost use Rattle.lwe_parameters.specs.Answers.{encryption_parameters_rows, encryption_parameters_answer};
ghost use Rattle.lwe_parameters.specs.Answers.{parameters_rows, parameters_answer};

use check_order::{Refusal, Sizes};
use primus_lattice::LweDimension;
use primus_reduce::Modulus;

// Dimension n and modulus q: what a phase is taken with. Stays: four structs, none in another: a caller sets each field by its name.
#[derive(Clone, Copy, Debug, PartialEq, Eq)]
pub struct LwePhaseParameters {
    pub dimension: LweDimension,
    pub modulus: Modulus,
}

// Dimension n, modulus q and plaintext modulus t: what a decryption is made with.
#[derive(Clone, Copy, Debug, PartialEq, Eq)]
pub struct LweDecryptionParameters {
    pub dimension: LweDimension,
    pub modulus: Modulus,
    pub plaintext_modulus: u32,
}

// Dimension n, modulus q and the limit E of errors.
#[derive(Clone, Copy, Debug, PartialEq, Eq)]
pub struct LweEncryptionParameters {
    pub dimension: LweDimension,
    pub modulus: Modulus,
    pub error_limit: u32,
}

// Dimension n, modulus q, plaintext modulus t and the limit E of errors.
#[derive(Clone, Copy, Debug, PartialEq, Eq)]
pub struct LweParameters {
    pub dimension: LweDimension,
    pub modulus: Modulus,
    pub plaintext_modulus: u32,
    pub error_limit: u32,
}

// What phases need of a decryption's.
impl From<LweDecryptionParameters> for LwePhaseParameters {
    ghost from_gives = { λ params phases. phases ≡ phases_in params };

    fn from(params: LweDecryptionParameters) -> LwePhaseParameters {
        LwePhaseParameters {
            dimension: params.dimension,
            modulus: params.modulus,
        }
    }
}

// What phases need of an encryption's.
impl From<LweEncryptionParameters> for LwePhaseParameters {
    ghost from_gives = { λ params phases. phases ≡ phases_of params };

    fn from(params: LweEncryptionParameters) -> LwePhaseParameters {
        LwePhaseParameters {
            dimension: params.dimension,
            modulus: params.modulus,
        }
    }
}

// What a decryption needs of an encryption's.
impl From<LweParameters> for LweDecryptionParameters {
    ghost from_gives = { λ params opened. opened ≡ decryption_of params };

    fn from(params: LweParameters) -> LweDecryptionParameters {
        LweDecryptionParameters {
            dimension: params.dimension,
            modulus: params.modulus,
            plaintext_modulus: params.plaintext_modulus,
        }
    }
}

impl LwePhaseParameters {
    // 2 and 6, for a call to add what it judges.
    pub fn sizes(self) -> Sizes
        ensures { JudgesSizes (phase_parameters_rows self) result }
    {
        let mut s = Sizes::default();
        s.modulus = checks::modulus_refused(self.modulus);
        s.dimension = self.dimension.refused();
        s
    }

    // Those, and 7 and 8 where the call takes a plaintext modulus.
    // Stays: two lines that `Moduli::judge` has too: parameters would be built on the codec's crate for them alone.
    pub fn sizes_with(self, plaintext_modulus: Option<u32>) -> Sizes
        ensures { JudgesSizes (judged_rows plaintext_modulus self) result }
    {
        let mut s = self.sizes();
        if let Some(t) = plaintext_modulus {
            s.plaintext = checks::plaintext_refused(t);
            s.small = checks::small_refused(t, self.modulus);
        }
        s
    }
}

impl LweDecryptionParameters {
    // 2, 6, 7 and 8, for a call to add what it judges.
    pub fn sizes(self) -> Sizes
        ensures { JudgesSizes (decryption_parameters_rows self) result }
    {
        LwePhaseParameters::from(self).sizes_with(Some(self.plaintext_modulus))
    }
}

impl LweEncryptionParameters {
    // 2, 6 and 13, for a call to add what it judges.
    pub fn sizes(self) -> Sizes
        ensures { JudgesSizes (encryption_parameters_rows self) result }
    {
        let mut s = LwePhaseParameters::from(self).sizes();
        s.error_limit = checks::error_limit_refused(self.error_limit, self.modulus);
        s
    }

    // Refuses by 2, 6, 13.
    // Stays: a try_new for each kind, as in the Rust; TryFrom would take its parameters as a tuple, without their names.
    pub fn try_new(
        dimension: LweDimension,
        modulus: Modulus,
        error_limit: u32,
    ) -> Result<LweEncryptionParameters, Refusal>
        ensures { result ≡ encryption_parameters_answer
            (record { dimension = dimension; modulus = modulus; error_limit = error_limit }) }
    {
        let params = LweEncryptionParameters {
            dimension,
            modulus,
            error_limit,
        };
        params.sizes().judge()?;
        Ok(params)
    }
}

impl LweParameters {
    // 2, 6, 7, 8 and 13, for a call to add what it judges.
    pub fn sizes(self) -> Sizes
        ensures { JudgesSizes (parameters_rows self) result }
    {
        let mut s = LweDecryptionParameters::from(self).sizes();
        s.error_limit = checks::error_limit_refused(self.error_limit, self.modulus);
        s
    }

    // Refuses by 2, 6, 7, 8, 13.
    // Stays: a try_new for each kind, as in the Rust; TryFrom would take its parameters as a tuple, without their names.
    pub fn try_new(
        dimension: LweDimension,
        modulus: Modulus,
        plaintext_modulus: u32,
        error_limit: u32,
    ) -> Result<LweParameters, Refusal>
        ensures { result ≡ parameters_answer (record {
          dimension = dimension;
          modulus = modulus;
          plaintext_modulus = plaintext_modulus;
          error_limit = error_limit;
        }) }
    {
        let parameters = LweParameters {
            dimension,
            modulus,
            plaintext_modulus,
            error_limit,
        };
        parameters.sizes().judge()?;
        Ok(parameters)
    }
}
