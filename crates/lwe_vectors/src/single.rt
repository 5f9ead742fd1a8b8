// One ciphertext, under a secret key: mask b, errors e, the plaintext or the message, the ciphertext in out; or the ciphertext b.
// With a public key: errors e, coefficients d, the key a.
use crate::kind::Form;
use crate::record::Record;
use crate::said;
use crate::said::Said;
use primus_lwe_public_key::LwePublicKey;

pub(crate) fn encrypt_encoded(r: &Record, form: Form, out: &mut [u32]) -> Said {
    let h = r.head;
    let key = form.key(r);
    let params = h.encryption_parameters();
    let answer = primus_lwe::encrypt_encoded_to(params, key, r.b, r.e, h.value, out);
    said::written(answer, said::fresh(h))
}

pub(crate) fn encrypt_message(r: &Record, form: Form, out: &mut [u32]) -> Said {
    let h = r.head;
    let key = form.key(r);
    let params = h.parameters();
    let embedding = h.embedding;
    let answer = primus_lwe::encrypt_message_to(params, embedding, key, r.b, r.e, h.value, out);
    said::written(answer, said::fresh(h))
}

pub(crate) fn phase(r: &Record, form: Form) -> Said {
    Some(primus_lwe::decrypt_phase(r.head.phase_parameters(), form.key(r), r.b))
}

pub(crate) fn decrypt_message(r: &Record, form: Form) -> Said {
    Some(primus_lwe::decrypt_message(r.head.decryption_parameters(), form.key(r), r.b))
}

// A public key from a secret: masks b, errors e.
pub(crate) fn public_key(r: &Record, form: Form, out: &mut [u32]) -> Said {
    let params = r.head.encryption_parameters();
    said::done(LwePublicKey::generate(params, form.key(r), r.b, r.e, out))
}

pub(crate) fn public_encoded(r: &Record, out: &mut [u32]) -> Said {
    let h = r.head;
    let params = h.encryption_parameters();
    let answer = LwePublicKey::encrypt_encoded_to(params, r.a, r.e, r.d, h.value, out);
    said::written(answer, said::untallied())
}

pub(crate) fn public_message(r: &Record, out: &mut [u32]) -> Said {
    let h = r.head;
    let params = h.parameters();
    let embedding = h.embedding;
    let answer = LwePublicKey::encrypt_message_to(params, embedding, r.a, r.e, r.d, h.value, out);
    said::written(answer, said::untallied())
}
