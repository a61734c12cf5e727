ghost use Rattle.std.specs.Prelude.{◌≡◌, ◌⊎◌, ℕ, List, Some, None, Err, IfOk, IfErr, Any, map, string_bytes, slice_get, IfSome};
ghost use Rattle.std.specs.Io.{WritesAtMost};
ghost use Rattle.std.specs.declared.option.Option.{Option};
ghost use Rattle.dbe_serve.specs.Arguments.{IsFilledWith, IsUnreadable, AreRead};
ghost use Rattle.dbe_serve.specs.ArgumentSteps.{IsReadAt};

use crate::Status;
use std::alloc::Global;
use std::env::FillError;
use std::rt::Env;

const MOST_ARGUMENT_BYTES: usize = 64;

/// What tells the arguments of a program.
pub trait Arguments {
    /// The arguments after the program's own name, in their order, where the object tells them.
    ghost given: { Self → Option (List (List ℕ)) };

    /// Copies the argument of a place, counted from 0, to the front of `block`, and answers how many bytes it has.
    ///
    /// `NotPresent`: there is no argument at this place, nor at any later one. `TooLong`: it has more bytes than
    /// `block` has room for.
    fn fill(&self, place: usize, block: &mut [u8]) -> Result<usize, FillError>
        ensures bound { WritesAtMost result block.new }
        ensures bytes { IfSome (given self.now) (λ told. IsFilledWith (slice_get told place) result block.new) };
}

/// The arguments that the program was started with, of which none are told.
#[derive(Drop)]
pub struct StdArguments<'a, R> {
    rt: &'a R,
}

impl<'a, R: Env> StdArguments<'a, R> {
    /// The arguments of the runtime.
    pub fn new(rt: &'a R) -> StdArguments<'a, R> {
        StdArguments { rt }
    }
}

impl<R: Env> Arguments for StdArguments<'_, R> {
    ghost given = { λ _. None };

    fn fill(&self, place: usize, block: &mut [u8]) -> Result<usize, FillError> {
        match place.checked_add(1) {
            Some(after_name) => self.rt.arg(after_name, block),
            None => Err(FillError::NotPresent),
        }
    }
}

/// All arguments, in their order.
///
/// - `Arguments`: an argument is no UTF-8, or has more than 64 bytes.
/// - `Memory`: memory ran out.
pub fn read_arguments<A: Arguments>(alloc: Global, arguments: &A) -> Result<Vec<String>, Status>
    ensures ok { IfOk result (λ read. (told : List (List ℕ)) → A.given arguments.now ≡ Some told → AreRead told (map (λ s. string_bytes s) read.items)) }
    ensures err { IfErr result (λ status. (status ≡ Status.Arguments) ⊎ (status ≡ Status.Memory)) }
    ensures refused { result ≡ Err Status.Arguments → (told : List (List ℕ)) → A.given arguments.now ≡ Some told → Any IsUnreadable told }
{
    let mut read = Vec::new(alloc);
    'places: for place in 0..usize::MAX {
        match read_argument(alloc, arguments, place)? {
            Some(argument) => {
                if read.push(argument).is_err() {
                    return Err(Status::Memory);
                }
            }
            None => return Ok(read),
        }
    }
    Err(Status::Memory)
}

// The argument of a place, and none after the last one.
fn read_argument<A: Arguments>(
    alloc: Global,
    arguments: &A,
    place: usize,
) -> Result<Option<String>, Status>
    ensures ok { IfOk result (λ read. (told : List (List ℕ)) → A.given arguments.now ≡ Some told → IsReadAt told place read) }
    ensures err { IfErr result (λ status. (status ≡ Status.Arguments) ⊎ (status ≡ Status.Memory)) }
    ensures refused { result ≡ Err Status.Arguments → (told : List (List ℕ)) → A.given arguments.now ≡ Some told → Any IsUnreadable told }
{
    let mut block = [0u8; MOST_ARGUMENT_BYTES];
    let length = match arguments.fill(place, &mut block) {
        Ok(length) => length,
        Err(FillError::NotPresent) => return Ok(None),
        Err(FillError::TooLong) => return Err(Status::Arguments),
    };
    let Ok(text) = str::from_utf8(&block[..length]) else {
        return Err(Status::Arguments);
    };
    match String::from_str(alloc, text) {
        Ok(argument) => Ok(Some(argument)),
        Err(_) => Err(Status::Memory),
    }
}
