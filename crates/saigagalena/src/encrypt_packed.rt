// Packed encryption under a secret key, for C. The promises are those of primus_lwe_packed, of the parameters that the numbers give.
ghost use Rattle.scheme.specs.Lwe.{ErrorWords, ErrorNumbers};
ghost use Rattle.lwe_errors.specs.Errors.{errors_of};
ghost use Rattle.primus_lwe_packed.specs.Answers.{EncryptsPacked, EncryptsPackedMessages};
ghost use Rattle.c_numbers.specs.Numbers.{embedding_for, encryption_with, messages_with};
ghost use Rattle.c_answers.specs.Service.{Tells, outcome_of};

use c_numbers::LweOutcome;
use lwe_errors::LweErrorsRef;

// The two calls below, whose names say which form of the errors they take.
fn encrypt_encoded_packed(
    modulus: u32,
    n: usize,
    error_limit: u32,
    secret: &[u32],
    mask: &[u32],
    errors: LweErrorsRef,
    plaintexts: &[u32],
    out: &mut [u32],
) -> LweOutcome
    ensures { Tells outcome_of (λ x. EncryptsPacked (encryption_with modulus n error_limit) secret.now
        mask.now (errors_of errors.entry) plaintexts.now out.old x
        out.new) result }
{
    let params = c_numbers::encryption_for(modulus, n, error_limit);
    LweOutcome::from(primus_lwe_packed::encrypt_encoded_packed(
        params, secret, mask, errors, plaintexts, out,
    ))
}

// n mask words, then a body for each plaintext; no tally. Refuses by 2, 6, 9, 10, 11, 12, 13, 14, 15.
#[unsafe(no_mangle)]
pub extern "C" fn saigagalena_encrypt_encoded_packed(
    modulus: u32,
    n: usize,
    error_limit: u32,
    secret: &[u32],
    mask: &[u32],
    errors: &[i32],
    plaintexts: &[u32],
    out: &mut [u32],
) -> LweOutcome
    ensures { Tells outcome_of (λ x. EncryptsPacked (encryption_with modulus n error_limit) secret.now
        mask.now (ErrorNumbers errors.now) plaintexts.now out.old x
        out.new) result }
{
    encrypt_encoded_packed(
        modulus,
        n,
        error_limit,
        secret,
        mask,
        LweErrorsRef::Signed(errors),
        plaintexts,
        out,
    )
}

// saigagalena_encrypt_encoded_packed with the errors as words.
#[unsafe(no_mangle)]
pub extern "C" fn saigagalena_encrypt_encoded_packed_error_words(
    modulus: u32,
    n: usize,
    error_limit: u32,
    secret: &[u32],
    mask: &[u32],
    errors: &[u32],
    plaintexts: &[u32],
    out: &mut [u32],
) -> LweOutcome
    ensures { Tells outcome_of (λ x. EncryptsPacked (encryption_with modulus n error_limit) secret.now
        mask.now (ErrorWords errors.now) plaintexts.now out.old x
        out.new) result }
{
    encrypt_encoded_packed(
        modulus,
        n,
        error_limit,
        secret,
        mask,
        LweErrorsRef::Encoded(errors),
        plaintexts,
        out,
    )
}

// The two calls below, whose names say which form of the errors they take.
fn encrypt_message_packed(
    modulus: u32,
    n: usize,
    t: u32,
    error_limit: u32,
    centered: u32,
    secret: &[u32],
    mask: &[u32],
    errors: LweErrorsRef,
    messages: &[u32],
    out: &mut [u32],
) -> LweOutcome
    ensures { Tells outcome_of (λ x. EncryptsPackedMessages (messages_with modulus n t error_limit)
        (embedding_for centered) secret.now mask.now (errors_of errors.entry) messages.now
        out.old x out.new) result }
{
    let params = c_numbers::messages_for(modulus, n, t, error_limit);
    LweOutcome::from(primus_lwe_packed::encrypt_message_packed(
        params,
        c_numbers::embedding_for(centered),
        secret,
        mask,
        errors,
        messages,
        out,
    ))
}

// n mask words, then a body for each message; no tally. Refuses by 2, 6, 7, 8, 9, 10, 11, 12, 13, 14, 15, 16.
#[unsafe(no_mangle)]
pub extern "C" fn saigagalena_encrypt_message_packed(
    modulus: u32,
    n: usize,
    t: u32,
    error_limit: u32,
    centered: u32,
    secret: &[u32],
    mask: &[u32],
    errors: &[i32],
    messages: &[u32],
    out: &mut [u32],
) -> LweOutcome
    ensures { Tells outcome_of (λ x. EncryptsPackedMessages (messages_with modulus n t error_limit)
        (embedding_for centered) secret.now mask.now (ErrorNumbers errors.now) messages.now
        out.old x out.new) result }
{
    encrypt_message_packed(
        modulus,
        n,
        t,
        error_limit,
        centered,
        secret,
        mask,
        LweErrorsRef::Signed(errors),
        messages,
        out,
    )
}

// saigagalena_encrypt_message_packed with the errors as words.
#[unsafe(no_mangle)]
pub extern "C" fn saigagalena_encrypt_message_packed_error_words(
    modulus: u32,
    n: usize,
    t: u32,
    error_limit: u32,
    centered: u32,
    secret: &[u32],
    mask: &[u32],
    errors: &[u32],
    messages: &[u32],
    out: &mut [u32],
) -> LweOutcome
    ensures { Tells outcome_of (λ x. EncryptsPackedMessages (messages_with modulus n t error_limit)
        (embedding_for centered) secret.now mask.now (ErrorWords errors.now) messages.now
        out.old x out.new) result }
{
    encrypt_message_packed(
        modulus,
        n,
        t,
        error_limit,
        centered,
        secret,
        mask,
        LweErrorsRef::Encoded(errors),
        messages,
        out,
    )
}
