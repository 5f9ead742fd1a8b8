// The words of a total, one ciphertext after the other, and the call that adds a file.
ghost use Rattle.check_order.specs.Answer.{code_of};
ghost use Rattle.pooling.specs.Total.{BeginsSaved, AddsSaved};

use crate::rows;
use check_order::Refusal;
use lwe_parameters::LweDecryptionParameters;
use lwe_tag::LweTag;
use pooling_refusals::{begin_refusal, total_refusal};

// The ciphertexts of a file as a total, and their tags, whatever stood there. The E of its head is not read.
// Stays: tags beside the words: a caller lends the two rooms.
// Refuses by 19, 2, 6, 7, 8, 10, 12, 14, 17.
#[tactic(auto, using(scheme::proofs::Lists::is_tabulate))]
pub fn begin_saved(
    params: LweDecryptionParameters,
    bytes: &[u8],
    total: &mut [u32],
    tags: &mut [LweTag],
) -> Result<(), Refusal>
    ensures { BeginsSaved params bytes.now total.old tags.old (code_of result)
        total.new tags.new }
{
    begin_refusal(params, bytes, total.len(), tags.len())?;
    saved::words_to(bytes, total);
    pooling_rows::write_tags(tags, bytes);
    Ok(())
}

// Adds the ciphertexts of a file to a total, and their tags. The E of its head is not read: a sum takes none.
// Refuses by 19, 2, 6, 7, 8, 10, 12, 14, 17.
pub fn add_saved(
    params: LweDecryptionParameters,
    bytes: &[u8],
    total: &mut [u32],
    tags: &mut [LweTag],
) -> Result<(), Refusal>
    ensures { AddsSaved params bytes.now total.old tags.old (code_of result)
        total.new tags.new }
{
    total_refusal(params, bytes, total, tags)?;
    rows::add_rows(total, tags, params, bytes);
    Ok(())
}
