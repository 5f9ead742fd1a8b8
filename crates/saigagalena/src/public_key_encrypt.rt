// Encryption under the public key, for C. The promises are those of primus_lwe_public_key, of the parameters that the numbers give.
ghost use Rattle.scheme.specs.Lwe.{ErrorWords, ErrorNumbers};
ghost use Rattle.lwe_errors.specs.Errors.{errors_of};
ghost use Rattle.primus_lwe_public_key.specs.Answers.{EncryptsPublic, EncryptsPublicMessage};
ghost use Rattle.c_numbers.specs.Numbers.{embedding_for, encryption_with, messages_with};
ghost use Rattle.c_answers.specs.Service.{Tells, outcome_of};

use c_numbers::LweOutcome;
use lwe_errors::LweErrorsRef;
use primus_lwe_public_key::LwePublicKey;

// The two calls below, whose names say which form of the errors they take.
fn public_key_encrypt_encoded(
    modulus: u32,
    n: usize,
    error_limit: u32,
    key: &[u32],
    errors: LweErrorsRef,
    coefficients: &[i32],
    plaintext: u32,
    out: &mut [u32],
) -> LweOutcome
    ensures { Tells outcome_of (λ x. EncryptsPublic (encryption_with modulus n error_limit) key.now
        (errors_of errors.entry) coefficients.now plaintext out.old x out.new) result }
{
    let params = c_numbers::encryption_for(modulus, n, error_limit);
    LweOutcome::from(LwePublicKey::encrypt_encoded_to(
        params,
        key,
        errors,
        coefficients,
        plaintext,
        out,
    ))
}

// An encryption of p from n + 1 errors and n coefficients; no tally. Refuses by 2, 6, 9, 11, 12, 13, 14, 15.
#[unsafe(no_mangle)]
pub extern "C" fn saigagalena_public_key_encrypt_encoded(
    modulus: u32,
    n: usize,
    error_limit: u32,
    key: &[u32],
    errors: &[i32],
    coefficients: &[i32],
    plaintext: u32,
    out: &mut [u32],
) -> LweOutcome
    ensures { Tells outcome_of (λ x. EncryptsPublic (encryption_with modulus n error_limit) key.now
        (ErrorNumbers errors.now) coefficients.now plaintext out.old x out.new) result }
{
    public_key_encrypt_encoded(
        modulus,
        n,
        error_limit,
        key,
        LweErrorsRef::Signed(errors),
        coefficients,
        plaintext,
        out,
    )
}

// saigagalena_public_key_encrypt_encoded with the errors as words.
#[unsafe(no_mangle)]
pub extern "C" fn saigagalena_public_key_encrypt_encoded_error_words(
    modulus: u32,
    n: usize,
    error_limit: u32,
    key: &[u32],
    errors: &[u32],
    coefficients: &[i32],
    plaintext: u32,
    out: &mut [u32],
) -> LweOutcome
    ensures { Tells outcome_of (λ x. EncryptsPublic (encryption_with modulus n error_limit) key.now
        (ErrorWords errors.now) coefficients.now plaintext out.old x out.new) result }
{
    public_key_encrypt_encoded(
        modulus,
        n,
        error_limit,
        key,
        LweErrorsRef::Encoded(errors),
        coefficients,
        plaintext,
        out,
    )
}

// The two calls below, whose names say which form of the errors they take.
fn public_key_encrypt_message(
    modulus: u32,
    n: usize,
    t: u32,
    error_limit: u32,
    centered: u32,
    key: &[u32],
    errors: LweErrorsRef,
    coefficients: &[i32],
    message: u32,
    out: &mut [u32],
) -> LweOutcome
    ensures { Tells outcome_of (λ x. EncryptsPublicMessage (messages_with modulus n t error_limit)
        (embedding_for centered) key.now (errors_of errors.entry) coefficients.now message
        out.old x out.new) result }
{
    let params = c_numbers::messages_for(modulus, n, t, error_limit);
    LweOutcome::from(LwePublicKey::encrypt_message_to(
        params,
        c_numbers::embedding_for(centered),
        key,
        errors,
        coefficients,
        message,
        out,
    ))
}

// An encryption of encode(m) under the public key; no tally. Refuses by 2, 6, 7, 8, 9, 11, 12, 13, 14, 15, 16.
#[unsafe(no_mangle)]
pub extern "C" fn saigagalena_public_key_encrypt_message(
    modulus: u32,
    n: usize,
    t: u32,
    error_limit: u32,
    centered: u32,
    key: &[u32],
    errors: &[i32],
    coefficients: &[i32],
    message: u32,
    out: &mut [u32],
) -> LweOutcome
    ensures { Tells outcome_of (λ x. EncryptsPublicMessage (messages_with modulus n t error_limit)
        (embedding_for centered) key.now (ErrorNumbers errors.now) coefficients.now message
        out.old x out.new) result }
{
    public_key_encrypt_message(
        modulus,
        n,
        t,
        error_limit,
        centered,
        key,
        LweErrorsRef::Signed(errors),
        coefficients,
        message,
        out,
    )
}

// saigagalena_public_key_encrypt_message with the errors as words.
#[unsafe(no_mangle)]
pub extern "C" fn saigagalena_public_key_encrypt_message_error_words(
    modulus: u32,
    n: usize,
    t: u32,
    error_limit: u32,
    centered: u32,
    key: &[u32],
    errors: &[u32],
    coefficients: &[i32],
    message: u32,
    out: &mut [u32],
) -> LweOutcome
    ensures { Tells outcome_of (λ x. EncryptsPublicMessage (messages_with modulus n t error_limit)
        (embedding_for centered) key.now (ErrorWords errors.now) coefficients.now message
        out.old x out.new) result }
{
    public_key_encrypt_message(
        modulus,
        n,
        t,
        error_limit,
        centered,
        key,
        LweErrorsRef::Encoded(errors),
        coefficients,
        message,
        out,
    )
}
