//! Laws of headers in a row, under any order of slots.
ghost use Rattle.std.specs.Prelude.{◌≡◌, ◌≤◌, ◌<◌, ◌+◌, ◌^◌, ℕ, List, [], ◌∷◌, ◌++◌, length, Some, None, Ok, Err};
ghost use Rattle.std.specs.Prelude.{IsOkAnd, false};
ghost use Rattle.ep_ip.specs.Skip.{is_skipped, skip};
ghost use Rattle.ep_base.specs.Bytes.{num};
ghost use Rattle.ep_ext.specs.Auth.{auth_at};
ghost use Rattle.ep_ext.specs.Chain.{Chain, Fault, IsEnd, IsPiece, Row, fault_of, prefix_of};
ghost use Rattle.ep_base.specs.SliceError.{CanMove};
ghost use Rattle.ep_ext.specs.Slot.{KeepsNumbers, Order, slot_of};
ghost use Rattle.ep_ext.specs.Value.{Piece, bytes_of, slots};
ghost use Rattle.ep_base.specs.declared.err.slice_error.SliceError.{SliceError};
ghost use Rattle.ep_ext.specs.declared.err.ip_auth.header_error.HeaderError.{HeaderError as AuthError};
ghost use Rattle.ep_ext.specs.declared.err.ipv6_exts.header_error.HeaderError.{HeaderError};
ghost use Rattle.ep_ext.specs.declared.net.ipv6_ext_slot.Ipv6ExtSlot.{Ipv6ExtSlot};

use ep_base::IpNumber;
use ep_base::err::LenError;
use ep_ip::Ipv6Header;

/// Bytes are headers in a row and a rest in one way alone.
pub fn chain_is_alone()
    ensures { (order : Order) (first : ℕ) (bytes : List ℕ) (p q : List Piece)
        (m n : ℕ) (r s : List ℕ)
        → Chain order first bytes p m r → Chain order first bytes q n s
        → (p ≡ q) × (m ≡ n) × (r ≡ s) }
{}

/// A whole header of the number that a row names last makes the row longer.
pub fn row_grows_by_a_header()
    ensures row { (order : Order) (first : ℕ) (pieces : List Piece) (last : ℕ)
        (slot : Ipv6ExtSlot) (header : List ℕ)
        → Row order [] first pieces last → order (slots pieces) last ≡ Some slot
        → IsPiece slot header
        → Row order [] first (pieces ++ (slot, header) ∷ []) (num header 0 1) }
    ensures slots { (pieces : List Piece) (slot : Ipv6ExtSlot) (header : List ℕ)
        → slots (pieces ++ (slot, header) ∷ []) ≡ slots pieces ++ slot ∷ [] }
    ensures bytes { (pieces : List Piece) (slot : Ipv6ExtSlot) (header : List ℕ)
        → bytes_of (pieces ++ (slot, header) ∷ []) ≡ bytes_of pieces ++ header }
{}

/// A row ends at a number that its order has no slot for, and at one of which the rest starts with
/// no whole header.
pub fn row_ends_where_none_is_taken()
    ensures closed { (order : Order) (passed : List Ipv6ExtSlot) (last : ℕ) (rest : List ℕ)
        → order passed last ≡ None → IsEnd order passed last rest }
    ensures fault { (order : Order) (passed : List Ipv6ExtSlot) (last : ℕ)
        (rest : List ℕ) (slot : Ipv6ExtSlot)
        (error : SliceError HeaderError) → order passed last ≡ Some slot
        → prefix_of slot rest ≡ Err error
        → IsEnd order passed last rest }
{}

/// A whole header at the start of some bytes is found, whatever follows it, and has 8 bytes at
/// least.
pub fn whole_header_is_found()
    ensures found { (slot : Ipv6ExtSlot) (header rest : List ℕ)
        → IsPiece slot header → prefix_of slot (header ++ rest) ≡ Ok header }
    ensures least { (slot : Ipv6ExtSlot) (header : List ℕ)
        → IsPiece slot header → 8 ≤ length header }
{}

/// The offset of a fault is within the bytes, so that the length of what comes before them can be
/// added to it. It is 0 for a header at the start, alone and as an authentication header; for
/// headers in a row it is that of the header at which the row stops.
pub fn faults_can_be_moved()
    ensures prefix { (slot : Ipv6ExtSlot) (bytes : List ℕ) (error : SliceError HeaderError) (n : ℕ)
        → prefix_of slot bytes ≡ Err error → n < 2 ^ 64 → CanMove error n }
    ensures row { (order : Order) (first : ℕ) (bytes : List ℕ) (pieces : List Piece)
        (last : ℕ) (rest : List ℕ)
        (fault : Fault) (n : ℕ) → Chain order first bytes pieces last rest
        → fault_of order pieces last rest ≡ Some fault
        → length bytes + n < 2 ^ 64 → CanMove fault.0 n }
    ensures auth { (bytes : List ℕ) (error : SliceError AuthError) (n : ℕ)
        → auth_at bytes ≡ Err error → n < 2 ^ 64 → CanMove error n }
{}

/// Where bytes are headers in a row and a rest, and the walk over all skipped headers doesn't skip
/// the number after them, it ends at that number and rest.
pub fn skip_agrees_with_chain()
    ensures value { (first : ℕ) (bytes : List ℕ) (pieces : List Piece) (last : ℕ)
        (rest : List ℕ) → Chain slot_of first bytes pieces last rest
        → is_skipped last ≡ false → skip first bytes ≡ Ok (last, rest) }
    // So it does under any order in which headers take slots of their own numbers.
    ensures any { (order : Order) (first : ℕ) (bytes : List ℕ) (pieces : List Piece) (last : ℕ)
        (rest : List ℕ) → KeepsNumbers order → Chain order first bytes pieces last rest
        → is_skipped last ≡ false → skip first bytes ≡ Ok (last, rest) }
    ensures own { KeepsNumbers slot_of }
{
    ep_ip::laws::ipv6::skip_follows_every_walk();
}

/// The same of the call that walks.
pub fn skip_call_agrees_with_chain(
    first: IpNumber,
    slice: &[u8],
) -> Result<(IpNumber, &[u8]), LenError>
    ensures { (order : Order) (pieces : List Piece) (last : ℕ) (rest : List ℕ)
        → KeepsNumbers order → Chain order first.0 slice.now pieces last rest
        → is_skipped last ≡ false
        → IsOkAnd result (λ r. (r.0.0 ≡ last) × (r.1.now ≡ rest)) }
{
    skip_agrees_with_chain();
    Ipv6Header::skip_all_header_extensions_in_slice(slice, first)
}
