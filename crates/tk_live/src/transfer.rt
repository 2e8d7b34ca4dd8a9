//! The bytes of a script, read whole.
ghost use Rattle.std.specs.Prelude.{IfOk, IfErr};
ghost use Rattle.tk_live.specs.Transfer.{IsScript, IsReading};

use std::alloc::Global;
use std::io::Read;
use tk_fault::AppFault;

/// The longest script that is read, in bytes.
pub const MAX_SCRIPT: usize = 1_048_576;

/// All bytes of the reader, at most `MAX_SCRIPT`. It gives up after 2^32 reads.
pub fn read_script<R: Read>(alloc: Global, reader: &mut R) -> Result<Vec<u8>, AppFault>
    ensures ok { IfOk result (λ script. IsScript (R.remaining reader.old) script.items) }
    ensures err { IfErr result IsReading }
{
    let mut script = Vec::new(alloc);
    let mut buffer = [0u8; 4096];
    for _ in 0u64..4_294_967_296 {
        match reader.read(&mut buffer) {
            Ok(0) => return Ok(script),
            Ok(n) => {
                if script.len() + n > MAX_SCRIPT {
                    return Err(AppFault::Read);
                }
                if script.extend_from_slice(&buffer[..n]).is_err() {
                    return Err(AppFault::Memory);
                }
            }
            Err(_) => return Err(AppFault::Read),
        }
    }
    Err(AppFault::Read)
}
