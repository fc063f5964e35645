//! What the blocks of a pipeline are joined to.

ghost use Rattle.std.specs.Prelude.{◌≡◌, [], false, None, Some, Err, IfErr, IsOk, OnErr, OnOk};
ghost use Rattle.pipeline.specs.declared.fault.PipelineFault.TheVariants.{Joined, Memory};
ghost use Rattle.items.specs.Items.{type_of};
ghost use Rattle.pipeline.specs.Marks.{unread};
ghost use Rattle.pipeline.specs.Pipeline.{has_more};

use crate::fault::PipelineFault;
use crate::marks::MarkReader;
use crate::part::{StreamPart, TapePart};
use crate::tracked::Tracked;
use flowgraph::BlockId;
use items::{ItemType, Items, Mark};
use raw_items::{ByteOrder, Decoder};
use std::alloc::Global;
use std::marker::Model;
use tags::Tag;

/// A reader whose bytes are the items of a source, and a reader of its marks if there is one.
#[derive(Drop)]
pub struct Input<R> {
    pub(crate) reader: Tracked<R>,
    // Makes items of the bytes.
    pub(crate) decoder: Decoder,
    // Reads the marks on these items.
    pub(crate) marks: Option<MarkReader<R>>,
    // The items of the last piece that was read, and the marks on them.
    pub(crate) items: Items,
    pub(crate) found: Vec<Mark>,
    // Whether the reader has no more, and the source is closed.
    pub(crate) is_ended: bool,
}

impl<R> Model for Input<R> {
    ghost use Rattle.std.specs.Prelude.{◌≡◌};
    ghost use Rattle.items.specs.Items.{type_of};
    ghost use Rattle.pipeline.specs.Ends.{InputState};

    ghost Value = { InputState R };

    ghost view = { λ i. record { reader = i.reader.reader; has_failed = i.reader.has_failed; decoder = i.decoder; marks = i.marks; is_ended = i.is_ended } };

    ghost invariant = { λ i. type_of i.items ≡ i.decoder.item_type };
}

impl<R> Input<R> {
    /// The reader.
    pub fn reader(&self) -> &R
        ensures { result.now ≡ self.now.reader }
    {
        self.reader.reader()
    }

    /// A reader that was not read yet, for a source of such items.
    pub(crate) fn new(alloc: Global, item: ItemType, order: ByteOrder, reader: R) -> Input<R>
        ensures { result ≡ record {
          reader = reader;
          has_failed = false;
          decoder = record { item_type = item; order = order; cut = [] };
          marks = None;
          is_ended = false;
        } }
    {
        Input {
            reader: Tracked::new(reader),
            decoder: Decoder::new(item, order),
            marks: None,
            items: Items::empty(alloc, item),
            found: Vec::new(alloc),
            is_ended: false,
        }
    }
}

impl<R: Drop> Input<R> {
    /// Joins a reader of marks of this part of a tape, if there is none.
    pub(crate) fn join_marks(
        &mut self,
        alloc: Global,
        source: BlockId,
        part: TapePart,
        reader: R,
    ) -> Result<(), PipelineFault>
        ensures joined { (self.old.marks ≡ None → ⊥) → result ≡ Err (Joined source) }
        ensures free { self.old.marks ≡ None → IfErr result (λ fault. fault ≡ Memory) }
        ensures ok { OnOk result (self.new ≡ record self.old { marks = Some (unread part reader) }) }
        ensures unmarked { OnOk result (self.old.marks ≡ None) }
        ensures err { OnErr result (self.new ≡ self.old) }
    {
        if self.marks.is_some() {
            return Err(PipelineFault::Joined(source));
        }
        self.marks = Some(MarkReader::new(alloc, part, reader)?);
        Ok(())
    }
}

/// Where the items of a sink go, and its tags.
#[derive(Drop)]
pub struct Output<W> {
    /// The order of the bytes of an item.
    pub order: ByteOrder,
    /// Where its items stand in the whole stream, and which of them are written.
    pub part: StreamPart,
    /// The writer of the items as raw bytes.
    pub items_to: Option<W>,
    /// The writer of the tags, a line each.
    pub tags_to: Option<W>,
    /// What was drained last.
    pub items: Items,
    pub tags: Vec<Tag>,
    /// What was drained last, as bytes.
    pub bytes: Vec<u8>,
}

impl<W> Output<W> {
    /// Writers for a sink of such items, with nothing written yet.
    pub(crate) fn new(
        alloc: Global,
        item: ItemType,
        order: ByteOrder,
        part: StreamPart,
        items_to: Option<W>,
        tags_to: Option<W>,
    ) -> Output<W>
        ensures order { result.order ≡ order }
        ensures part { result.part ≡ part }
        ensures item { type_of result.items ≡ item }
        ensures items_to { result.items_to ≡ items_to }
        ensures tags_to { result.tags_to ≡ tags_to }
    {
        Output {
            order,
            part,
            items_to,
            tags_to,
            items: Items::empty(alloc, item),
            tags: Vec::new(alloc),
            bytes: Vec::new(alloc),
        }
    }
}

/// What a block is joined to.
#[derive(Drop)]
pub enum End<R, W> {
    /// Nothing.
    Open,
    /// A reader that feeds it.
    Input(Input<R>),
    /// Writers of what it takes.
    Output(Output<W>),
}

impl<R, W> End<R, W> {
    /// Whether it is a reader of items that is not at its end.
    pub(crate) fn has_more(&self) -> bool
        ensures { result ≡ has_more self.now }
    {
        match self {
            End::Input(input) => !input.is_ended,
            End::Open | End::Output(_) => false,
        }
    }
}
