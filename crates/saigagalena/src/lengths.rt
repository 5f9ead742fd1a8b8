// How many words a caller allocates, for C: that number, or 2^32 plus the first number that applies.
ghost use Rattle.std.specs.Prelude.{◌≡◌, ◌+◌, ◌*◌};
ghost use Rattle.check_order.specs.Answer.{answer};
ghost use Rattle.key_switch_parameters.specs.Answers.{parameter_rows, key_words};
ghost use Rattle.c_numbers.specs.Numbers.{switching_with};
ghost use Rattle.c_numbers.specs.Lengths.{dimension_rows, packed_rows};
ghost use Rattle.c_answers.specs.Service.{word_number};

// The release that this is: later ones open what it saves.
#[unsafe(no_mangle)]
pub extern "C" fn saigagalena_version() -> u32
    ensures { result ≡ 6 }
{
    6
}

// A ciphertext: n + 1. Refuses by 6.
#[unsafe(no_mangle)]
pub extern "C" fn saigagalena_ciphertext_words(n: usize) -> u64
    ensures { result ≡ word_number (answer (dimension_rows n) (n + 1)) }
{
    c_numbers::word_number(c_numbers::ciphertext_words(n))
}

// A packed ciphertext with `count` bodies: n + count. Refuses by 6, 10.
#[unsafe(no_mangle)]
pub extern "C" fn saigagalena_packed_words(n: usize, count: usize) -> u64
    ensures { result ≡ word_number (answer (packed_rows n count) (n + count)) }
{
    c_numbers::word_number(c_numbers::packed_words(n, count))
}

// A public key: n × (n + 1). Refuses by 6.
#[unsafe(no_mangle)]
pub extern "C" fn saigagalena_public_key_words(n: usize) -> u64
    ensures { result ≡ word_number (answer (dimension_rows n) (n * (n + 1))) }
{
    c_numbers::word_number(c_numbers::public_key_words(n))
}

// A switching key: n × L × (m + 1). Refuses by 1 to 3, 5, 6.
#[unsafe(no_mangle)]
pub extern "C" fn saigagalena_switching_key_words(
    modulus: u32,
    base_log: u32,
    levels: u32,
    n: usize,
    m: usize,
) -> u64
    ensures { result ≡ word_number (answer (parameter_rows (switching_with modulus base_log levels n m))
        (key_words (switching_with modulus base_log levels n m))) }
{
    let params = c_numbers::switching_for(modulus, base_log, levels, n, m);
    c_numbers::word_number(c_numbers::switching_key_words(params))
}
