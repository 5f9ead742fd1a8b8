// The ciphertexts of a file that is judged, added to those of a total: one sum a place.
ghost use Rattle.std.specs.Prelude.{◌≡◌, length};
ghost use Rattle.scheme.specs.Lwe.{add_words};
ghost use Rattle.primus_reduce.specs.Ring.{size_of};
ghost use Rattle.saved.specs.Layout.{file_words};
ghost use Rattle.pooling_rows.specs.Rows.{add_tags};
ghost use Rattle.pooling_refusals.specs.Rows.{total_refusal};

use lwe_parameters::LweDecryptionParameters;
use lwe_tag::LweTag;
use pooling_rows::add_row;

// Adds each ciphertext of a file to that of its place, and their tags.
pub(crate) fn add_rows(
    total: &mut [u32],
    tags: &mut [LweTag],
    params: LweDecryptionParameters,
    bytes: &[u8],
)
    requires { total_refusal params bytes.now total.old tags.old ≡ 0 }
    ensures { (total.new ≡ add_words (size_of params.modulus) total.old
        (file_words bytes.now (length total.old)))
        × (tags.new ≡ add_tags tags.old bytes.now) }
{
    for (i, tag) in tags.iter_mut().enumerate() {
        *tag = add_row(total, *tag, bytes, i, params.modulus, params.dimension);
    }
}
