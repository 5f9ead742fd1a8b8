// One message under a secret key, for C. The promises are those of primus_lwe, of the parameters that the numbers give.
ghost use Rattle.scheme.specs.Lwe.{Words, Signed, ErrorWords, ErrorNumbers};
ghost use Rattle.lwe_errors.specs.Errors.{errors_of};
ghost use Rattle.lwe_secret_key.specs.Key.{key_of};
ghost use Rattle.primus_lwe.specs.Answers.{EncryptsMessage};
ghost use Rattle.c_numbers.specs.Numbers.{embedding_for, messages_with};
ghost use Rattle.c_answers.specs.Service.{Tells, outcome_of};

use c_numbers::LweOutcome;
use lwe_errors::LweErrorsRef;
use lwe_secret_key::LweSecretKeyRef;

// The four calls below, whose names say which form of the key and of the error they take.
fn encrypt_message(
    modulus: u32,
    n: usize,
    t: u32,
    error_limit: u32,
    centered: u32,
    secret: LweSecretKeyRef,
    mask: &[u32],
    errors: LweErrorsRef,
    message: u32,
    out: &mut [u32],
) -> LweOutcome
    ensures { Tells outcome_of (λ x. EncryptsMessage (messages_with modulus n t error_limit)
        (embedding_for centered) (key_of secret.entry) mask.now (errors_of errors.entry) message
        out.old x out.new) result }
{
    let params = c_numbers::messages_for(modulus, n, t, error_limit);
    LweOutcome::from(primus_lwe::encrypt_message_to(
        params,
        c_numbers::embedding_for(centered),
        secret,
        mask,
        errors,
        message,
        out,
    ))
}

// An encryption of encode(m), with tally E. Refuses by 2, 6, 7, 8, 9, 11, 12, 13, 14, 15, 16.
#[unsafe(no_mangle)]
pub extern "C" fn saigagalena_encrypt_message(
    modulus: u32,
    n: usize,
    t: u32,
    error_limit: u32,
    centered: u32,
    secret: &[u32],
    mask: &[u32],
    errors: &[i32],
    message: u32,
    out: &mut [u32],
) -> LweOutcome
    ensures { Tells outcome_of (λ x. EncryptsMessage (messages_with modulus n t error_limit)
        (embedding_for centered) (Words secret.now) mask.now (ErrorNumbers errors.now) message
        out.old x out.new) result }
{
    encrypt_message(
        modulus,
        n,
        t,
        error_limit,
        centered,
        LweSecretKeyRef::Encoded(secret),
        mask,
        LweErrorsRef::Signed(errors),
        message,
        out,
    )
}

// saigagalena_encrypt_message under a signed key.
#[unsafe(no_mangle)]
pub extern "C" fn saigagalena_encrypt_message_signed(
    modulus: u32,
    n: usize,
    t: u32,
    error_limit: u32,
    centered: u32,
    secret: &[i32],
    mask: &[u32],
    errors: &[i32],
    message: u32,
    out: &mut [u32],
) -> LweOutcome
    ensures { Tells outcome_of (λ x. EncryptsMessage (messages_with modulus n t error_limit)
        (embedding_for centered) (Signed secret.now) mask.now (ErrorNumbers errors.now) message
        out.old x out.new) result }
{
    encrypt_message(
        modulus,
        n,
        t,
        error_limit,
        centered,
        LweSecretKeyRef::Signed(secret),
        mask,
        LweErrorsRef::Signed(errors),
        message,
        out,
    )
}

// saigagalena_encrypt_message with the error as a word.
#[unsafe(no_mangle)]
pub extern "C" fn saigagalena_encrypt_message_error_words(
    modulus: u32,
    n: usize,
    t: u32,
    error_limit: u32,
    centered: u32,
    secret: &[u32],
    mask: &[u32],
    errors: &[u32],
    message: u32,
    out: &mut [u32],
) -> LweOutcome
    ensures { Tells outcome_of (λ x. EncryptsMessage (messages_with modulus n t error_limit)
        (embedding_for centered) (Words secret.now) mask.now (ErrorWords errors.now) message
        out.old x out.new) result }
{
    encrypt_message(
        modulus,
        n,
        t,
        error_limit,
        centered,
        LweSecretKeyRef::Encoded(secret),
        mask,
        LweErrorsRef::Encoded(errors),
        message,
        out,
    )
}

// saigagalena_encrypt_message_signed with the error as a word.
#[unsafe(no_mangle)]
pub extern "C" fn saigagalena_encrypt_message_signed_error_words(
    modulus: u32,
    n: usize,
    t: u32,
    error_limit: u32,
    centered: u32,
    secret: &[i32],
    mask: &[u32],
    errors: &[u32],
    message: u32,
    out: &mut [u32],
) -> LweOutcome
    ensures { Tells outcome_of (λ x. EncryptsMessage (messages_with modulus n t error_limit)
        (embedding_for centered) (Signed secret.now) mask.now (ErrorWords errors.now) message
        out.old x out.new) result }
{
    encrypt_message(
        modulus,
        n,
        t,
        error_limit,
        centered,
        LweSecretKeyRef::Signed(secret),
        mask,
        LweErrorsRef::Encoded(errors),
        message,
        out,
    )
}
