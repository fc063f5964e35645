//! What the ports, counts and setting of a block are, as plain data.
ghost use Rattle.std.specs.Prelude.{◌≡◌};
ghost use Rattle.stream_model.specs.Shapes.{ports, any_ports};

use stream_model::{ItemType, Role, Signature};

/// How the items that a block takes of an input go with those that it gives.
#[derive(Clone, Copy, Debug, PartialEq, Eq)]
pub enum Pace {
    /// So many items taken and so many given in a firing. A tag goes to the nearest item; ties round up.
    Rate(u64, u64),
    /// So many items taken, and so many given of which these are the next behind so many others. A tag stays on its
    /// item.
    Turns(u64, u64, u64),
    /// So many items taken and so many given in a firing. A tag goes where the block's `Places` puts it.
    Placed(u64, u64),
    /// The first items are left out, this many.
    Skip(u64),
    /// This many zeros come before the stream.
    Delay(u64),
}

impl Pace {
    ghost use Rattle.std.specs.Prelude.{◌<◌, ◌^◌};
    ghost use Rattle.block_trait.specs.Shape.{taken_at, given_at};

    /// How many items the first `firings` firings take.
    pub fn taken(self, firings: u64) -> u64
        requires { taken_at self firings < 2 ^ 63 }
        ensures { result ≡ taken_at self firings }
    {
        match self {
            Pace::Rate(taken, _) | Pace::Turns(taken, _, _) | Pace::Placed(taken, _) => {
                taken * firings
            }
            Pace::Skip(_) => firings,
            Pace::Delay(count) => firings.saturating_sub(count),
        }
    }

    /// How many items the first `firings` firings give on each output.
    pub fn given(self, firings: u64) -> u64
        requires { given_at self firings < 2 ^ 63 }
        ensures { result ≡ given_at self firings }
    {
        match self {
            Pace::Rate(_, given) | Pace::Turns(_, given, _) | Pace::Placed(_, given) => {
                given * firings
            }
            Pace::Skip(count) => firings.saturating_sub(count),
            Pace::Delay(_) => firings,
        }
    }
}

/// What may be set of a block, and the block's own value of it.
#[derive(Clone, Copy, Debug)]
pub enum Setting<'a> {
    /// Nothing.
    Fixed,
    /// A number: the least, the greatest, and the block's own.
    Number(i64, i64, i64),
    /// A list of taps of the same length as the block's own, which these are.
    Taps(&'a [i16]),
}

/// Everything of a block but its equation.
#[derive(Clone, Copy, Debug)]
pub struct Shape<'a> {
    pub role: Role,
    pub inputs: Signature,
    pub outputs: Signature,
    /// How the items of the input that was asked for go with those given.
    pub pace: Pace,
    /// After how many firings the block ends by itself.
    pub limit: Option<u64>,
    /// How many items of the past a firing reads, the current one included.
    pub history: u32,
    /// What may be set, and the block's own value of it.
    pub setting: Setting<'a>,
    /// The state word before the first firing.
    pub start: u64,
}

/// Exactly so many ports.
pub fn ports(count: u32, item: ItemType) -> Signature
    ensures { result ≡ ports count item }
{
    Signature {
        least: count,
        most: count,
        item,
    }
}

/// One port or more, up to 16.
pub fn any_ports(item: ItemType) -> Signature
    ensures { result ≡ any_ports item }
{
    Signature {
        least: 1,
        most: 16,
        item,
    }
}

impl<'a> Shape<'a> {
    ghost use Rattle.std.specs.Prelude.{None};
    ghost use Rattle.stream_model.specs.declared.vocabulary.Role.TheVariants.{Work};
    ghost use Rattle.block_trait.specs.declared.shape.Pace.TheVariants.{Rate};
    ghost use Rattle.block_trait.specs.declared.shape.Setting.TheVariants.{Fixed};

    /// The shape of most blocks: a firing takes and gives so many items, and depends on the current items alone.
    pub fn at_rate(inputs: Signature, outputs: Signature, taken: u64, given: u64) -> Shape<'a>
        ensures { result ≡ record {
          role = Work;
          inputs = inputs;
          outputs = outputs;
          pace = Rate taken given;
          limit = None;
          history = 1;
          setting = Fixed;
          start = 0;
        } }
    {
        Shape {
            role: Role::Work,
            inputs,
            outputs,
            pace: Pace::Rate(taken, given),
            limit: None,
            history: 1,
            setting: Setting::Fixed,
            start: 0,
        }
    }

    /// The shape of a block with one input and one output, an item for an item.
    pub fn sync(from: ItemType, to: ItemType) -> Shape<'a>
        ensures { result ≡ record {
          role = Work;
          inputs = ports 1 from;
          outputs = ports 1 to;
          pace = Rate 1 1;
          limit = None;
          history = 1;
          setting = Fixed;
          start = 0;
        } }
    {
        Shape::at_rate(ports(1, from), ports(1, to), 1, 1)
    }
}
