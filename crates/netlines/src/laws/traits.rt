//! What `Clone`, `PartialEq` and `Hash` of the types here mean. Each clause is about the relation
//! that the type's own impl names and that its calls keep.
ghost use Rattle.std.specs.Prelude.{◌≡◌, pos};
ghost use Rattle.std.specs.Hash as fed;
ghost use Rattle.etherparse.specs.base.Traits.{HashIsOfIndex, IsPlainData, VariantFeeds};
ghost use Rattle.lines.specs.Endings.{error_index};
ghost use Rattle.lines.specs.declared.run_error.RunError.TheVariants as run;
ghost use Rattle.netlines.specs.declared.post_error.PostError.TheVariants as post;
ghost use Rattle.netlines.specs.declared.seal_error.SealError.TheVariants as seal;

use crate::{Letter, PostError, SealError};
pub use checksum_verdicts::laws::{verdicts_are_plain_data, verdicts_hash_their_index};
use etherparse::err::packet::TransportChecksumError;
use etherparse::laws::base::traits::Value;
pub use etherparse::laws::packet::traits::equal_messages_are_read_alike;
use lines::RunError;
use std::hash::Hash;

/// A clone equals its value and takes no memory. Two values are equal exactly where they are the
/// same.
pub fn types_are_plain_data()
    ensures letter { IsPlainData ⟦<Letter as Value>⟧ }
    ensures post_error { IsPlainData ⟦<PostError as Value>⟧ }
    ensures run_error { IsPlainData ⟦<RunError as Value>⟧ }
    ensures seal_error { IsPlainData ⟦<SealError as Value>⟧ }
{
    etherparse::laws::base::traits::types_are_plain_data();
    etherparse::laws::packet::traits::types_are_plain_data();
    etherparse::laws::defrag::traits::types_are_plain_data();
}

/// The hash of an error of a run is that of the index of its variant, in the order of declaration.
pub fn hashes_are_of_indices()
    ensures run_error { HashIsOfIndex error_index ⟦<RunError as Hash>⟧.hash_input }
    ensures write_zero { ⟦<RunError as Hash>⟧.hash_input run.WriteZero ≡ fed.isize (pos 2) }
    ensures reads { ⟦<RunError as Hash>⟧.hash_input run.TooManyReads ≡ fed.isize (pos 4) }
{}

/// The hash of an error of posting or sealing is that of the index of its variant, in the order of
/// declaration, and then of its fields.
pub fn errors_hash_all_fields()
    ensures cuts { VariantFeeds ⟦<PostError as Hash>⟧.hash_input 0 post.Cuts fed.usize }
    ensures too_long { ⟦<PostError as Hash>⟧.hash_input post.MessageTooLong ≡ fed.isize (pos 1) }
    ensures extension { ⟦<PostError as Hash>⟧.hash_input post.ExtensionNumber ≡ fed.isize (pos 2) }
    ensures icmp { ⟦<PostError as Hash>⟧.hash_input post.IcmpOfOtherVersion ≡ fed.isize (pos 3) }
    ensures posted_fragment { VariantFeeds ⟦<PostError as Hash>⟧.hash_input 4 post.PieceTooLong fed.usize }
    ensures memory { ⟦<PostError as Hash>⟧.hash_input post.Memory ≡ fed.isize (pos 5) }
    ensures seal_icmp { ⟦<SealError as Hash>⟧.hash_input seal.IcmpOfOtherVersion
        ≡ fed.isize (pos 0) }
    ensures seal_too_long { ⟦<SealError as Hash>⟧.hash_input seal.TooLong ≡ fed.isize (pos 1) }
    ensures seal_checksum { VariantFeeds ⟦<SealError as Hash>⟧.hash_input
        2 seal.Checksum ⟦<TransportChecksumError as Hash>⟧.hash_input }
    ensures seal_memory { ⟦<SealError as Hash>⟧.hash_input seal.Memory ≡ fed.isize (pos 3) }
{}
