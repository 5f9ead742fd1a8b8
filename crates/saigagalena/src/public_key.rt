// The public key, for C. The promises are those of primus_lwe_public_key, of the parameters that the numbers give.
ghost use Rattle.scheme.specs.Lwe.{Words, Signed, ErrorWords, ErrorNumbers};
ghost use Rattle.lwe_errors.specs.Errors.{errors_of};
ghost use Rattle.lwe_secret_key.specs.Key.{key_of};
ghost use Rattle.primus_lwe_public_key.specs.Answers.{GeneratesPublicKey};
ghost use Rattle.c_numbers.specs.Numbers.{encryption_with};

use lwe_errors::LweErrorsRef;
use lwe_secret_key::LweSecretKeyRef;
use primus_lwe_public_key::LwePublicKey;

// The four calls below, whose names say which form of the key and of the errors they take.
fn public_key_generate(
    modulus: u32,
    n: usize,
    error_limit: u32,
    secret: LweSecretKeyRef,
    masks: &[u32],
    errors: LweErrorsRef,
    out: &mut [u32],
) -> u32
    ensures { GeneratesPublicKey (encryption_with modulus n error_limit) (key_of secret.entry)
        masks.now (errors_of errors.entry) out.old result out.new }
{
    let params = c_numbers::encryption_for(modulus, n, error_limit);
    c_numbers::code(LwePublicKey::generate(params, secret, masks, errors, out))
}

// n encryptions of 0 in out. Refuses by 2, 6, 9, 11, 12, 13, 14, 15.
#[unsafe(no_mangle)]
pub extern "C" fn saigagalena_public_key_generate(
    modulus: u32,
    n: usize,
    error_limit: u32,
    secret: &[u32],
    masks: &[u32],
    errors: &[i32],
    out: &mut [u32],
) -> u32
    ensures { GeneratesPublicKey (encryption_with modulus n error_limit) (Words secret.now)
        masks.now (ErrorNumbers errors.now) out.old result out.new }
{
    public_key_generate(
        modulus,
        n,
        error_limit,
        LweSecretKeyRef::Encoded(secret),
        masks,
        LweErrorsRef::Signed(errors),
        out,
    )
}

// saigagalena_public_key_generate under a signed key.
#[unsafe(no_mangle)]
pub extern "C" fn saigagalena_public_key_generate_signed(
    modulus: u32,
    n: usize,
    error_limit: u32,
    secret: &[i32],
    masks: &[u32],
    errors: &[i32],
    out: &mut [u32],
) -> u32
    ensures { GeneratesPublicKey (encryption_with modulus n error_limit) (Signed secret.now)
        masks.now (ErrorNumbers errors.now) out.old result out.new }
{
    public_key_generate(
        modulus,
        n,
        error_limit,
        LweSecretKeyRef::Signed(secret),
        masks,
        LweErrorsRef::Signed(errors),
        out,
    )
}

// saigagalena_public_key_generate with the errors as words.
#[unsafe(no_mangle)]
pub extern "C" fn saigagalena_public_key_generate_error_words(
    modulus: u32,
    n: usize,
    error_limit: u32,
    secret: &[u32],
    masks: &[u32],
    errors: &[u32],
    out: &mut [u32],
) -> u32
    ensures { GeneratesPublicKey (encryption_with modulus n error_limit) (Words secret.now)
        masks.now (ErrorWords errors.now) out.old result out.new }
{
    public_key_generate(
        modulus,
        n,
        error_limit,
        LweSecretKeyRef::Encoded(secret),
        masks,
        LweErrorsRef::Encoded(errors),
        out,
    )
}

// saigagalena_public_key_generate_signed with the errors as words.
#[unsafe(no_mangle)]
pub extern "C" fn saigagalena_public_key_generate_signed_error_words(
    modulus: u32,
    n: usize,
    error_limit: u32,
    secret: &[i32],
    masks: &[u32],
    errors: &[u32],
    out: &mut [u32],
) -> u32
    ensures { GeneratesPublicKey (encryption_with modulus n error_limit) (Signed secret.now)
        masks.now (ErrorWords errors.now) out.old result out.new }
{
    public_key_generate(
        modulus,
        n,
        error_limit,
        LweSecretKeyRef::Signed(secret),
        masks,
        LweErrorsRef::Encoded(errors),
        out,
    )
}
