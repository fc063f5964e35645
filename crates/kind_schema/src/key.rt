//! The keys of graph files.
ghost use Rattle.std.specs.Prelude.{◌≡◌};
ghost use Rattle.kind_schema.specs.Keys.{text_of, form_of, parameter_form, is_needed, is_needed_parameter, missing, missing_parameter};

use block_parameters::Parameter;

/// A key of a table.
#[derive(Clone, Copy, Debug, PartialEq, Eq)]
pub enum Key {
    /// `block`, of the file
    Block,
    /// `connect`, of the file
    Connect,
    /// `feed`, of the file
    Feed,
    /// `name`, of a block
    Name,
    /// `kind`, of a block
    Kind,
    /// A parameter of a block.
    Parameter(Parameter),
    /// `tags`, of a block: which tags pass.
    Tags,
    /// `multiple`, of a block
    Multiple,
    /// `capacity`, of a block
    Capacity,
    /// `from`, of a connection
    From,
    /// `to`, of a connection
    To,
    /// `from_port`, of a connection
    FromPort,
    /// `to_port`, of a connection
    ToPort,
    /// `source`, of a feed
    Source,
    /// `items`, of a feed
    Items,
    /// `tags`, of a feed: the tags that are fed.
    Marks,
    /// `at`, of a tag that is fed
    MarkAt,
    /// `key`, of a tag that is fed
    MarkKey,
    /// `value`, of a tag that is fed
    MarkValue,
}

impl Default for Key {
    /// The name of a block. It fills unused places of a list of keys.
    fn default() -> Key {
        Key::Name
    }
}

/// What may stand at a key.
#[derive(Clone, Copy, Debug, PartialEq, Eq)]
pub enum ValueForm {
    Text,
    /// A whole number.
    Number,
    /// An array of whole numbers.
    Numbers,
    /// An array of tables.
    Tables,
    /// One of the texts `all`, `none` and `one`.
    Choice,
}

impl Key {
    /// The key's text.
    pub fn text(&self) -> &'static str
        ensures { result.now ≡ text_of self.now }
    {
        match self {
            Key::Block => "block",
            Key::Connect => "connect",
            Key::Feed => "feed",
            Key::Name => "name",
            Key::Kind => "kind",
            Key::Parameter(parameter) => parameter.text(),
            Key::Tags | Key::Marks => "tags",
            Key::Multiple => "multiple",
            Key::Capacity => "capacity",
            Key::From => "from",
            Key::To => "to",
            Key::FromPort => "from_port",
            Key::ToPort => "to_port",
            Key::Source => "source",
            Key::Items => "items",
            Key::MarkAt => "at",
            Key::MarkKey => "key",
            Key::MarkValue => "value",
        }
    }

    /// What may stand at the key.
    pub fn form(&self) -> ValueForm
        ensures { result ≡ form_of self.now }
    {
        match self {
            Key::Block | Key::Connect | Key::Feed | Key::Marks => ValueForm::Tables,
            Key::Name | Key::Kind | Key::From | Key::To | Key::Source | Key::MarkKey =>
                ValueForm::Text,
            Key::Parameter(parameter) => parameter_form(*parameter),
            Key::Tags => ValueForm::Choice,
            Key::Multiple
            | Key::Capacity
            | Key::FromPort
            | Key::ToPort
            | Key::MarkAt
            | Key::MarkValue => ValueForm::Number,
            Key::Items => ValueForm::Numbers,
        }
    }

    /// Whether a table must have the key.
    pub fn is_needed(&self) -> bool
        ensures { result ≡ is_needed self.now }
    {
        match self {
            Key::Name
            | Key::Kind
            | Key::From
            | Key::To
            | Key::Source
            | Key::MarkAt
            | Key::MarkKey
            | Key::MarkValue => true,
            Key::Parameter(parameter) => is_needed_parameter(*parameter),
            Key::Block
            | Key::Connect
            | Key::Feed
            | Key::Tags
            | Key::Multiple
            | Key::Capacity
            | Key::FromPort
            | Key::ToPort
            | Key::Items
            | Key::Marks => false,
        }
    }

    /// The default for a missing number.
    pub fn missing(&self) -> i64
        ensures { result ≡ missing self.now }
    {
        match self {
            Key::Parameter(Parameter::Decimation | Parameter::Interpolation) | Key::Multiple => 1,
            Key::Parameter(Parameter::Start | Parameter::End) => -1,
            Key::Capacity => 4096,
            _ => 0,
        }
    }
}

fn parameter_form(parameter: Parameter) -> ValueForm
    ensures { result ≡ parameter_form parameter }
{
    match parameter {
        Parameter::ItemType | Parameter::To | Parameter::Order | Parameter::Code => ValueForm::Text,
        Parameter::Map
        | Parameter::Taps
        | Parameter::Lengths
        | Parameter::Values
        | Parameter::Places
        | Parameter::Next
        | Parameter::Output => ValueForm::Numbers,
        _ => ValueForm::Number,
    }
}

fn is_needed_parameter(parameter: Parameter) -> bool
    ensures { result ≡ is_needed_parameter parameter }
{
    !matches!(
        parameter,
        Parameter::Shift
            | Parameter::Decimation
            | Parameter::Interpolation
            | Parameter::Order
            | Parameter::Offset
            | Parameter::Start
            | Parameter::End
    )
}
