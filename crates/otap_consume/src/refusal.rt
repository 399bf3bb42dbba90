//! Why a frame is refused.
ghost use Rattle.std.specs.Prelude.{◌≡◌};
ghost use Rattle.otap_consume.specs.Outcomes.{refusal_of, stage_of};

use otap_attrs::RowRefusal;
use otap_columns::ColumnRefusal;
use thiserror::Error;

/// What the dictionaries of all sub-streams that are open may hold: the bytes of each value, and 8 for each.
pub const MAX_HELD: u64 = 1 << 28;

/// Why a frame is refused. Where several causes hold in the first stage that has any, any of them may be named.
#[derive(Debug, Drop, Error)]
pub enum Cause {
    /// Stage 1: the message is compressed.
    #[error("the message is compressed")]
    Compressed,
    /// Stage 1: a wire error, or a known field with another wire type, in the batch or in a payload.
    #[error("the batch message is malformed")]
    BadMessage,
    /// Stage 1: a singular field occurs twice.
    #[error("a field of the batch message occurs twice")]
    Repeated,
    /// Stage 1: a schema id is not UTF-8.
    #[error("a schema id is not UTF-8")]
    BadUtf8,
    /// Stage 2: the payload type is none of the signal's.
    #[error("the payload type is none of the signal's")]
    PayloadType,
    /// Stage 2: the payload type occurs twice in the batch.
    #[error("the payload type stands twice")]
    PayloadTwice,
    /// Stage 2: the schema id is open for another payload type.
    #[error("the schema id is open for another payload type")]
    SchemaIdTaken,
    /// Stage 3: the record of a payload can't be read after those before it.
    #[error("a record can't be read: {0}")]
    Column(ColumnRefusal),
    /// Stage 4: the main table has more than [`MAX_ITEMS`](otlp_model::MAX_ITEMS) rows.
    #[error("there are too many items")]
    TooManyItems,
    /// Stage 4: the tables weigh more than [`MAX_ROW_WEIGHT`](otap_cells::MAX_ROW_WEIGHT).
    #[error("the rows are too heavy")]
    RowsTooHeavy,
    /// Stage 4: the dictionaries hold more than [`MAX_HELD`].
    #[error("the dictionaries hold too much")]
    HeldTooMuch,
    /// Stage 5: something is wrong with the rows of a table.
    #[error("the rows are wrong: {0}")]
    Row(RowRefusal),
    /// Stage 6: the request weighs more than [`MAX_TREE_WEIGHT`](otlp_model::MAX_TREE_WEIGHT).
    #[error("the request is too heavy")]
    TreeTooHeavy,
    /// Stage 0: an earlier frame of the segment was refused.
    #[error("an earlier frame of the segment was refused")]
    Broken,
}

/// A frame that is refused: its batch id where the message can be read, the stage and the cause, and the type of the payload
/// that the cause is in, if it is in one.
#[derive(Debug, Drop)]
pub struct Refusal {
    /// The batch id; `None` where the message can't be read.
    pub id: Option<i64>,
    /// The number of the stage, from 0 to 6.
    pub stage: u8,
    /// Why it is refused.
    pub cause: Cause,
    /// The payload type; `None` where the cause is in no one payload.
    pub payload: Option<i32>,
}

impl Refusal {
    /// The refusal by a cause, in the stage of the cause.
    pub(crate) fn new(id: Option<i64>, cause: Cause, payload: Option<i32>) -> Refusal
        ensures { result ≡ refusal_of id cause payload }
    {
        let stage = stage_of(&cause);
        Refusal {
            id,
            stage,
            cause,
            payload,
        }
    }
}

fn stage_of(cause: &Cause) -> u8
    ensures { result ≡ stage_of cause.now }
{
    match cause {
        Cause::Broken => 0,
        Cause::Compressed | Cause::BadMessage | Cause::Repeated | Cause::BadUtf8 => 1,
        Cause::PayloadType | Cause::PayloadTwice | Cause::SchemaIdTaken => 2,
        Cause::Column(_) => 3,
        Cause::TooManyItems | Cause::RowsTooHeavy | Cause::HeldTooMuch => 4,
        Cause::Row(_) => 5,
        Cause::TreeTooHeavy => 6,
    }
}
