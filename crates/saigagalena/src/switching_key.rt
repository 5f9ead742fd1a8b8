// The key of a key switch, for C. The promises are those of key_switch_key, of the parameters that the numbers give.
ghost use Rattle.scheme.specs.Lwe.{Words, Signed, ErrorWords, ErrorNumbers};
ghost use Rattle.lwe_errors.specs.Errors.{errors_of};
ghost use Rattle.lwe_secret_key.specs.Key.{key_of};
ghost use Rattle.key_switch_key.specs.Answers.{Generates};
ghost use Rattle.c_numbers.specs.Numbers.{switching_with};

use key_switch_key::LweKeySwitchingKey;
use lwe_errors::LweErrorsRef;
use lwe_secret_key::LweSecretKeyRef;

// The four calls below, whose names say which form of the input key and of the errors they take.
fn switching_key_generate(
    modulus: u32,
    base_log: u32,
    levels: u32,
    n: usize,
    m: usize,
    error_limit: u32,
    input_key: LweSecretKeyRef,
    output_key: &[u32],
    masks: &[u32],
    errors: LweErrorsRef,
    out: &mut [u32],
) -> u32
    ensures { Generates (switching_with modulus base_log levels n m) error_limit
        (key_of input_key.entry) output_key.now masks.now
        (errors_of errors.entry) out.old result out.new }
{
    let params = c_numbers::switching_for(modulus, base_log, levels, n, m);
    c_numbers::code(LweKeySwitchingKey::generate(
        params,
        error_limit,
        input_key,
        output_key,
        masks,
        errors,
        out,
    ))
}

// Entry (i, j) encrypts sᵢ × weight j under the output key. Refuses by 1 to 3, 5, 6, 9, 11, 12, 13, 14, 15.
#[unsafe(no_mangle)]
pub extern "C" fn saigagalena_switching_key_generate(
    modulus: u32,
    base_log: u32,
    levels: u32,
    n: usize,
    m: usize,
    error_limit: u32,
    input_key: &[u32],
    output_key: &[u32],
    masks: &[u32],
    errors: &[i32],
    out: &mut [u32],
) -> u32
    ensures { Generates (switching_with modulus base_log levels n m) error_limit
        (Words input_key.now) output_key.now masks.now
        (ErrorNumbers errors.now) out.old result out.new }
{
    switching_key_generate(
        modulus,
        base_log,
        levels,
        n,
        m,
        error_limit,
        LweSecretKeyRef::Encoded(input_key),
        output_key,
        masks,
        LweErrorsRef::Signed(errors),
        out,
    )
}

// saigagalena_switching_key_generate from an input key of signed numbers.
#[unsafe(no_mangle)]
pub extern "C" fn saigagalena_switching_key_generate_signed(
    modulus: u32,
    base_log: u32,
    levels: u32,
    n: usize,
    m: usize,
    error_limit: u32,
    input_key: &[i32],
    output_key: &[u32],
    masks: &[u32],
    errors: &[i32],
    out: &mut [u32],
) -> u32
    ensures { Generates (switching_with modulus base_log levels n m) error_limit
        (Signed input_key.now) output_key.now masks.now
        (ErrorNumbers errors.now) out.old result out.new }
{
    switching_key_generate(
        modulus,
        base_log,
        levels,
        n,
        m,
        error_limit,
        LweSecretKeyRef::Signed(input_key),
        output_key,
        masks,
        LweErrorsRef::Signed(errors),
        out,
    )
}

// saigagalena_switching_key_generate with the errors as words.
#[unsafe(no_mangle)]
pub extern "C" fn saigagalena_switching_key_generate_error_words(
    modulus: u32,
    base_log: u32,
    levels: u32,
    n: usize,
    m: usize,
    error_limit: u32,
    input_key: &[u32],
    output_key: &[u32],
    masks: &[u32],
    errors: &[u32],
    out: &mut [u32],
) -> u32
    ensures { Generates (switching_with modulus base_log levels n m) error_limit
        (Words input_key.now) output_key.now masks.now
        (ErrorWords errors.now) out.old result out.new }
{
    switching_key_generate(
        modulus,
        base_log,
        levels,
        n,
        m,
        error_limit,
        LweSecretKeyRef::Encoded(input_key),
        output_key,
        masks,
        LweErrorsRef::Encoded(errors),
        out,
    )
}

// saigagalena_switching_key_generate_signed with the errors as words.
#[unsafe(no_mangle)]
pub extern "C" fn saigagalena_switching_key_generate_signed_error_words(
    modulus: u32,
    base_log: u32,
    levels: u32,
    n: usize,
    m: usize,
    error_limit: u32,
    input_key: &[i32],
    output_key: &[u32],
    masks: &[u32],
    errors: &[u32],
    out: &mut [u32],
) -> u32
    ensures { Generates (switching_with modulus base_log levels n m) error_limit
        (Signed input_key.now) output_key.now masks.now
        (ErrorWords errors.now) out.old result out.new }
{
    switching_key_generate(
        modulus,
        base_log,
        levels,
        n,
        m,
        error_limit,
        LweSecretKeyRef::Signed(input_key),
        output_key,
        masks,
        LweErrorsRef::Encoded(errors),
        out,
    )
}
