ghost use Rattle.std.specs.Prelude.{◌≡◌, ◌++◌, OnOk, OnErr};
ghost use Rattle.vc_script.specs.Texts.{claim_text, no_claim_text, busy_text, finish_text, idle_text};

use std::alloc::Global;
use vc_base::NoMemory;

/// Appends the line of a claim that took the slot. Without memory nothing is appended.
pub fn put_claim(alloc: Global, out: &mut Vec<u8>, slot: u32) -> Result<(), NoMemory>
    ensures ok { OnOk result (out.new.items ≡ out.old.items ++ claim_text slot) }
    ensures err { OnErr result (out.new.items ≡ out.old.items) }
{
    let line = format!(in alloc; "{slot} claim\n")?;
    out.extend_from_slice(line.as_bytes())?;
    Ok(())
}

/// Appends the line of a claim that met an empty list. Without memory nothing is appended.
pub fn put_no_claim(out: &mut Vec<u8>) -> Result<(), NoMemory>
    ensures ok { OnOk result (out.new.items ≡ out.old.items ++ no_claim_text) }
    ensures err { OnErr result (out.new.items ≡ out.old.items) }
{
    out.extend_from_slice(b"- claim none\n")?;
    Ok(())
}

/// Appends the line of a claim by a worker that has a job. Without memory nothing is appended.
pub fn put_busy(out: &mut Vec<u8>) -> Result<(), NoMemory>
    ensures ok { OnOk result (out.new.items ≡ out.old.items ++ busy_text) }
    ensures err { OnErr result (out.new.items ≡ out.old.items) }
{
    out.extend_from_slice(b"- claim busy\n")?;
    Ok(())
}

/// Appends the line of a finish, with the word that says how the job ended. Without memory nothing is
/// appended.
pub fn put_finish(alloc: Global, out: &mut Vec<u8>, slot: u32, word: &str) -> Result<(), NoMemory>
    ensures ok { OnOk result (out.new.items ≡ out.old.items ++ finish_text slot word.now) }
    ensures err { OnErr result (out.new.items ≡ out.old.items) }
{
    let line = format!(in alloc; "{slot} finish {word}\n")?;
    out.extend_from_slice(line.as_bytes())?;
    Ok(())
}

/// Appends the line of a finish by a worker that has no job. Without memory nothing is appended.
pub fn put_idle(out: &mut Vec<u8>) -> Result<(), NoMemory>
    ensures ok { OnOk result (out.new.items ≡ out.old.items ++ idle_text) }
    ensures err { OnErr result (out.new.items ≡ out.old.items) }
{
    out.extend_from_slice(b"- finish idle\n")?;
    Ok(())
}
