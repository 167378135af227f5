// Lines: what is thrown back, and the end of an answer. Relies on nothing.
ghost use Rattle.std.specs.Prelude.{◌≡◌, [], ◌∷◌, ◌++◌, IfOk, codes};

use std::alloc::{AllocError, Global};

// `what? LINE`, for a line that is no call.
pub fn what(heap: Global, line: &[u8]) -> Result<Vec<u8>, AllocError>
    ensures { IfOk result (λ v. v.items ≡ codes "what? " ++ line.now) }
{
    let mut answer = Vec::from_slice(heap, b"what? ")?;
    answer.extend_from_slice(line)?;
    Ok(answer)
}

// The answer with its line ended.
pub fn ended(answer: Vec<u8>) -> Result<Vec<u8>, AllocError>
    ensures { IfOk result (λ v. v.items ≡ answer.items ++ 10 ∷ []) }
{
    let mut answer = answer;
    answer.push(b'\n')?;
    Ok(answer)
}
