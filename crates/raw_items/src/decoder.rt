//! Items of bytes that come in pieces.
ghost use Rattle.std.specs.Prelude.{◌≡◌, ℕ, ◌+◌, ◌<◌, ◌≤◌, ◌↔◌, ℤ, List, [], ◌++◌, length, IsTrue, OnOk, OnErr, IsOk};
ghost use Rattle.stream_model.specs.declared.vocabulary.ItemType.{ItemType};
ghost use Rattle.items.specs.Items.{type_of, numbers_of, spare_of};
ghost use Rattle.raw_items.specs.Layout.{size_of, count_of, cut_of};
ghost use Rattle.raw_items.specs.Values.{items_of, all_bytes_of};

use crate::chunks::{push_numbers, write_at};
use crate::{ByteOrder, item_size};
use items::{ItemType, Items};
use numbers::vectors::{append, are_in_range};
use std::alloc::AllocError;
use std::marker::Model;

/// How many bytes an item has at most.
const MOST: usize = 4;

/// Makes items of bytes that come in pieces of any length. A contract sees the type of the items, the order of their
/// bytes, and the bytes of an item whose end has not come.
#[derive(Debug, Drop)]
pub struct Decoder {
    item_type: ItemType,
    order: ByteOrder,
    cut: [u8; MOST],
    cut_len: usize,
}

impl Model for Decoder {
    ghost use Rattle.std.specs.Prelude.{◌<◌, take};
    ghost use Rattle.raw_items.specs.Layout.{size_of};
    ghost use Rattle.raw_items.specs.Decoding.{Decoding};

    ghost Value = { Decoding };

    ghost view = { λ d. record { item_type = d.item_type; order = d.order; cut = take d.cut_len d.cut } };

    ghost invariant = { λ d. d.cut_len < size_of d.item_type };
}

impl Decoder {
    ghost use Rattle.raw_items.specs.Decoding.{HasDecoded};

    /// A decoder that holds no bytes.
    pub fn new(item_type: ItemType, order: ByteOrder) -> Decoder
        ensures value { result ≡ record { item_type = item_type; order = order; cut = [] } }
        ensures nothing { (start : List ℤ) → HasDecoded result [] start start }
    {
        Decoder {
            item_type,
            order,
            cut: [0; MOST],
            cut_len: 0,
        }
    }

    /// Appends the items that the bytes held and those of the next piece are, and holds the bytes behind the last whole
    /// item. It fails only where there is no room for the items and the allocator refuses.
    pub fn push(&mut self, piece: &[u8], out: &mut Items) -> Result<(), AllocError>
        requires same_type { type_of out.old ≡ self.old.item_type }
        ensures layout { self.new ≡ record self.old { cut = self.new.cut } }
        ensures item_type { type_of out.new ≡ type_of out.old }
        ensures items { OnOk result (numbers_of out.new ≡ numbers_of out.old
            ++ items_of self.old.item_type self.old.order (self.old.cut ++ piece.now)) }
        ensures cut { OnOk result (self.new.cut ≡ cut_of self.old.item_type (self.old.cut ++ piece.now)) }
        ensures spare { OnOk result (spare_of out.old ≤ spare_of out.new + count_of self.old.item_type
            (self.old.cut ++ piece.now)) }
        ensures err { OnErr result ((self.new ≡ self.old) × (numbers_of out.new ≡ numbers_of out.old)
            × (spare_of out.new ≡ spare_of out.old)) }
        ensures succeeds { count_of self.old.item_type (self.old.cut ++ piece.now) ≤ spare_of out.old → IsOk result }

        // Bytes that come in pieces are what they are at once.
        ensures pieces { OnOk result ((bytes : List ℕ) (start : List ℤ)
            → HasDecoded self.old bytes start (numbers_of out.old)
            → HasDecoded self.new (bytes ++ piece.now) start (numbers_of out.new)) }

        // The items and the bytes that are held give the bytes back.
        ensures round_trip { OnOk result (all_bytes_of self.old.item_type self.old.order
            (items_of self.old.item_type self.old.order (self.old.cut ++ piece.now)) ++ self.new.cut ≡ self.old.cut
            ++ piece.now) }
    {
        let size = item_size(self.item_type);
        out.reserve((self.cut_len + piece.len()) / size)?;
        let missing = size - self.cut_len;
        if piece.len() < missing {
            write_at(&mut self.cut, self.cut_len, piece);
            self.cut_len += piece.len();
            return Ok(());
        }
        let (end, rest) = piece.split_at(missing);
        write_at(&mut self.cut, self.cut_len, end);
        push_items(out, &self.cut[..size], self.order);
        push_items(out, rest, self.order);
        let (_whole, cut) = rest.split_at(rest.len() - rest.len() % size);
        write_at(&mut self.cut, 0, cut);
        self.cut_len = cut.len();
        Ok(())
    }

    /// The type of the items.
    pub fn item_type(&self) -> ItemType
        ensures { result ≡ self.now.item_type }
    {
        self.item_type
    }

    /// Whether the bytes so far end within an item.
    pub fn is_cut(&self) -> bool
        ensures { IsTrue result ↔ (0 < length self.now.cut) }
    {
        self.cut_len > 0
    }
}

// Appends the items that the bytes are, as many as are whole. It takes no memory.
fn push_items(out: &mut Items, bytes: &[u8], order: ByteOrder)
    requires { count_of (type_of out.old) bytes.now ≤ spare_of out.old }
    ensures item_type { type_of out.new ≡ type_of out.old }
    ensures items { numbers_of out.new ≡ numbers_of out.old ++ items_of (type_of out.old) order bytes.now }
    ensures spare { spare_of out.old ≤ spare_of out.new + count_of (type_of out.old) bytes.now }
{
    match out {
        Items::Byte(numbers) => {
            // Each is its own byte, so that they are copied as they stand.
            are_in_range(bytes);
            append(numbers, bytes);
        }
        Items::Short(numbers) => push_numbers(numbers, bytes, order),
        Items::Int(numbers) => push_numbers(numbers, bytes, order),
    }
}
