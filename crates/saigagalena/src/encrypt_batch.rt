// Batches of messages under a secret key, for C. The promises are those of primus_lwe_batch, of the parameters that the numbers give.
ghost use Rattle.scheme.specs.Lwe.{Words, ErrorWords, ErrorNumbers};
ghost use Rattle.lwe_errors.specs.Errors.{errors_of};
ghost use Rattle.primus_lwe_batch.specs.Answers.{EncryptsBatch};
ghost use Rattle.c_numbers.specs.Numbers.{embedding_for, messages_with};
ghost use Rattle.c_answers.specs.Service.{Tells, outcome_of};

use c_numbers::LweOutcome;
use lwe_errors::LweErrorsRef;

// The two calls below, whose names say which form of the errors they take.
fn encrypt_message_batch(
    modulus: u32,
    n: usize,
    t: u32,
    error_limit: u32,
    centered: u32,
    secret: &[u32],
    masks: &[u32],
    errors: LweErrorsRef,
    messages: &[u32],
    out: &mut [u32],
) -> LweOutcome
    ensures { Tells outcome_of (λ x. EncryptsBatch (messages_with modulus n t error_limit)
        (embedding_for centered) (Words secret.now) masks.now (errors_of errors.entry)
        messages.now out.old x out.new) result }
{
    let params = c_numbers::messages_for(modulus, n, t, error_limit);
    LweOutcome::from(primus_lwe_batch::encrypt_message_batch_to(
        params,
        c_numbers::embedding_for(centered),
        secret,
        masks,
        errors,
        messages,
        out,
    ))
}

// An encryption of encode(m) for each message, each with tally E. Refuses by 2, 6, 7, 8, 9, 11, 12, 13, 14, 15, 16.
#[unsafe(no_mangle)]
pub extern "C" fn saigagalena_encrypt_message_batch(
    modulus: u32,
    n: usize,
    t: u32,
    error_limit: u32,
    centered: u32,
    secret: &[u32],
    masks: &[u32],
    errors: &[i32],
    messages: &[u32],
    out: &mut [u32],
) -> LweOutcome
    ensures { Tells outcome_of (λ x. EncryptsBatch (messages_with modulus n t error_limit)
        (embedding_for centered) (Words secret.now) masks.now (ErrorNumbers errors.now)
        messages.now out.old x out.new) result }
{
    encrypt_message_batch(
        modulus,
        n,
        t,
        error_limit,
        centered,
        secret,
        masks,
        LweErrorsRef::Signed(errors),
        messages,
        out,
    )
}

// saigagalena_encrypt_message_batch with the errors as words.
#[unsafe(no_mangle)]
pub extern "C" fn saigagalena_encrypt_message_batch_error_words(
    modulus: u32,
    n: usize,
    t: u32,
    error_limit: u32,
    centered: u32,
    secret: &[u32],
    masks: &[u32],
    errors: &[u32],
    messages: &[u32],
    out: &mut [u32],
) -> LweOutcome
    ensures { Tells outcome_of (λ x. EncryptsBatch (messages_with modulus n t error_limit)
        (embedding_for centered) (Words secret.now) masks.now (ErrorWords errors.now)
        messages.now out.old x out.new) result }
{
    encrypt_message_batch(
        modulus,
        n,
        t,
        error_limit,
        centered,
        secret,
        masks,
        LweErrorsRef::Encoded(errors),
        messages,
        out,
    )
}
