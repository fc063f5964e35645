//! A block of one of two types.
ghost use Rattle.either_block.specs.Either.{meaning_of, place_of};

use block_trait::{Block, Held, Placing, Shape};
use items::Items;

/// A block of one of two types. It means what the block inside means.
///
/// A graph holds blocks of one type, so a graph with blocks of two has this one: `Either<Own, Kind>` takes blocks of
/// one's own beside those of any kind, and `Either<A, Either<B, C>>` blocks of three types.
#[derive(Debug, Drop, PartialEq, Eq)]
pub enum Either<A, B> {
    /// A block of the first type.
    Left(A),
    /// A block of the second type.
    Right(B),
}

/// The places of both types of blocks, each for its own.
impl<A, B, P: Placing<A>, Q: Placing<B>> Placing<Either<A, B>> for Either<P, Q> {
    ghost place_of = { place_of P.place_of Q.place_of };

    fn place(block: &Either<A, B>, input: usize, offset: u64) -> u64 {
        match block {
            Either::Left(block) => P::place(block, input, offset),
            Either::Right(block) => Q::place(block, input, offset),
        }
    }
}

impl<A: Block, B: Block> Block for Either<A, B> {
    ghost use Rattle.std.proofs.lemmas.Bool.{false≢true};
    ghost use Rattle.either_block.specs.declared.either.Either.TheVariants.{Left, Right};

    ghost meaning = { meaning_of A.meaning B.meaning };

    type Places = Either<A::Places, B::Places>;

    fn shape(&self, input: usize) -> Shape<'_> {
        match self {
            Either::Left(block) => block.shape(input),
            Either::Right(block) => block.shape(input),
        }
    }

    fn work(
        &self,
        state: u64,
        first: u64,
        count: u64,
        windows: &[Items],
        held: &[Held],
        out: &mut [Items],
    ) -> u64 {
        match self {
            Either::Left(block) => block.work(state, first, count, windows, held, out),
            Either::Right(block) => block.work(state, first, count, windows, held, out),
        }
    }

    ghost lawful = { elim [ Left a ↦ A.lawful a | Right b ↦ B.lawful b ] };

    ghost same = { elim [
      | Left a ↦ elim [ Left b ↦ A.same a b | Right b ↦ λ e. absurd (false≢true e) ]
      | Right a ↦ elim [ Left b ↦ λ e. absurd (false≢true e) | Right b ↦ B.same a b ]
    ] };
}
