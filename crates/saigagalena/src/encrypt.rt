// One encryption under a secret key, for C. The promises are those of primus_lwe, of the parameters that the numbers give.
ghost use Rattle.scheme.specs.Lwe.{Words, Signed, ErrorWords, ErrorNumbers};
ghost use Rattle.lwe_errors.specs.Errors.{errors_of};
ghost use Rattle.lwe_secret_key.specs.Key.{key_of};
ghost use Rattle.primus_lwe.specs.Answers.{Encrypts};
ghost use Rattle.c_numbers.specs.Numbers.{encryption_with};
ghost use Rattle.c_answers.specs.Service.{Tells, outcome_of};

use c_numbers::LweOutcome;
use lwe_errors::LweErrorsRef;
use lwe_secret_key::LweSecretKeyRef;

// The four calls below, whose names say which form of the key and of the error they take.
fn encrypt_encoded(
    modulus: u32,
    n: usize,
    error_limit: u32,
    secret: LweSecretKeyRef,
    mask: &[u32],
    errors: LweErrorsRef,
    plaintext: u32,
    out: &mut [u32],
) -> LweOutcome
    ensures { Tells outcome_of (λ x. Encrypts (encryption_with modulus n error_limit)
        (key_of secret.entry) mask.now (errors_of errors.entry) plaintext out.old x
        out.new) result }
{
    let params = c_numbers::encryption_for(modulus, n, error_limit);
    LweOutcome::from(primus_lwe::encrypt_encoded_to(params, secret, mask, errors, plaintext, out))
}

// b = ⟨a, s⟩ + e + p modulo q; out holds (a, b), with tally E. Refuses by 2, 6, 9, 11, 12, 13, 14, 15.
#[unsafe(no_mangle)]
pub extern "C" fn saigagalena_encrypt_encoded(
    modulus: u32,
    n: usize,
    error_limit: u32,
    secret: &[u32],
    mask: &[u32],
    errors: &[i32],
    plaintext: u32,
    out: &mut [u32],
) -> LweOutcome
    ensures { Tells outcome_of (λ x. Encrypts (encryption_with modulus n error_limit)
        (Words secret.now) mask.now (ErrorNumbers errors.now) plaintext out.old x
        out.new) result }
{
    encrypt_encoded(
        modulus,
        n,
        error_limit,
        LweSecretKeyRef::Encoded(secret),
        mask,
        LweErrorsRef::Signed(errors),
        plaintext,
        out,
    )
}

// saigagalena_encrypt_encoded under a signed key.
#[unsafe(no_mangle)]
pub extern "C" fn saigagalena_encrypt_encoded_signed(
    modulus: u32,
    n: usize,
    error_limit: u32,
    secret: &[i32],
    mask: &[u32],
    errors: &[i32],
    plaintext: u32,
    out: &mut [u32],
) -> LweOutcome
    ensures { Tells outcome_of (λ x. Encrypts (encryption_with modulus n error_limit)
        (Signed secret.now) mask.now (ErrorNumbers errors.now) plaintext out.old x
        out.new) result }
{
    encrypt_encoded(
        modulus,
        n,
        error_limit,
        LweSecretKeyRef::Signed(secret),
        mask,
        LweErrorsRef::Signed(errors),
        plaintext,
        out,
    )
}

// saigagalena_encrypt_encoded with the error as a word.
#[unsafe(no_mangle)]
pub extern "C" fn saigagalena_encrypt_encoded_error_words(
    modulus: u32,
    n: usize,
    error_limit: u32,
    secret: &[u32],
    mask: &[u32],
    errors: &[u32],
    plaintext: u32,
    out: &mut [u32],
) -> LweOutcome
    ensures { Tells outcome_of (λ x. Encrypts (encryption_with modulus n error_limit)
        (Words secret.now) mask.now (ErrorWords errors.now) plaintext out.old x
        out.new) result }
{
    encrypt_encoded(
        modulus,
        n,
        error_limit,
        LweSecretKeyRef::Encoded(secret),
        mask,
        LweErrorsRef::Encoded(errors),
        plaintext,
        out,
    )
}

// saigagalena_encrypt_encoded_signed with the error as a word.
#[unsafe(no_mangle)]
pub extern "C" fn saigagalena_encrypt_encoded_signed_error_words(
    modulus: u32,
    n: usize,
    error_limit: u32,
    secret: &[i32],
    mask: &[u32],
    errors: &[u32],
    plaintext: u32,
    out: &mut [u32],
) -> LweOutcome
    ensures { Tells outcome_of (λ x. Encrypts (encryption_with modulus n error_limit)
        (Signed secret.now) mask.now (ErrorWords errors.now) plaintext out.old x
        out.new) result }
{
    encrypt_encoded(
        modulus,
        n,
        error_limit,
        LweSecretKeyRef::Signed(secret),
        mask,
        LweErrorsRef::Encoded(errors),
        plaintext,
        out,
    )
}
