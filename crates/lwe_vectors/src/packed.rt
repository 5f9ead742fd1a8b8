// Packed ciphertexts and runs of ciphertexts, under words a: masks b, errors e, plaintexts or messages c, the ciphertext in out; or
// the ciphertext b, and in out what it holds.
use crate::record::Record;
use crate::said;
use crate::said::Said;

// Stays: a function for each call, here and in single and lattice: one for two would be handed the call, whose type, parameters, runs of
// words and the output, is longer than what it saves.
pub(crate) fn encrypt_encoded(r: &Record, out: &mut [u32]) -> Said {
    let params = r.head.encryption_parameters();
    let answer = primus_lwe_packed::encrypt_encoded_packed(params, r.a, r.b, r.e, r.c, out);
    said::written(answer, said::untallied())
}

pub(crate) fn encrypt_messages(r: &Record, out: &mut [u32]) -> Said {
    let params = r.head.parameters();
    let embedding = r.head.embedding;
    let answer = primus_lwe_packed::encrypt_message_packed(
        params, embedding, r.a, r.b, r.e, r.c, out,
    );
    said::written(answer, said::untallied())
}

pub(crate) fn encrypt_batch(r: &Record, out: &mut [u32]) -> Said {
    let params = r.head.parameters();
    let embedding = r.head.embedding;
    let answer = primus_lwe_batch::encrypt_message_batch_to(
        params, embedding, r.a, r.b, r.e, r.c, out,
    );
    said::written(answer, said::fresh(r.head))
}

pub(crate) fn phases(r: &Record, out: &mut [u32]) -> Said {
    let params = r.head.phase_parameters();
    said::done(primus_lwe_packed::decrypt_phase_packed(params, r.a, r.b, out))
}

pub(crate) fn batch_phases(r: &Record, out: &mut [u32]) -> Said {
    let params = r.head.phase_parameters();
    said::done(primus_lwe_batch::decrypt_phase_batch_to(params, r.a, r.b, out))
}

pub(crate) fn messages(r: &Record, out: &mut [u32]) -> Said {
    let params = r.head.decryption_parameters();
    said::done(primus_lwe_packed::decrypt_message_packed(params, r.a, r.b, out))
}

pub(crate) fn batch_messages(r: &Record, out: &mut [u32]) -> Said {
    let params = r.head.decryption_parameters();
    said::done(primus_lwe_batch::decrypt_message_batch_to(params, r.a, r.b, out))
}
