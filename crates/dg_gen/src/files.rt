//! The files of a project.
ghost use Rattle.std.specs.Prelude.{◌≡◌, ◌≤◌, ◌<◌, ◌+◌, ◌-◌, ◌++◌, ◌∷◌, [], string_bytes, map, flat_map, IfOk, OnOk};
ghost use Rattle.std.specs.List.{range_with_len};
ghost use Rattle.dg_files.specs.Kept.{tree_of};
ghost use Rattle.dg_ptext.specs.Printed.{printed};
ghost use Rattle.dg_gen.specs.Draws.{draw_at};
ghost use Rattle.dg_gen.specs.Paths.{script_path, object_path};
ghost use Rattle.dg_gen.specs.Files.{file, object_fields, script_text, object_files, first_file, outer_file, files_of};

use crate::draws::draw_at;
use crate::trees::{
    collection_path, first_text, object_path, object_text, outer_text, script_path,
};
use std::alloc::{AllocError, Global};

/// Files with their paths.
pub(crate) type Files = Vec<(String, Vec<u8>)>;

/// The files in order: each script and the game object of its number, and then the collections.
pub(crate) fn files_of(alloc: Global, draws: &[u32], size: u32) -> Result<Files, AllocError>
    requires { 1 ≤ size }
    ensures { IfOk result (λ v. tree_of v.items ≡ files_of draws.now size) }
{
    let mut files = Vec::new(alloc);
    put_objects(alloc, &mut files, draws, size)?;
    put_first(alloc, &mut files, draws, size)?;
    put_others(alloc, &mut files, draws, size)?;
    Ok(files)
}

#[tactic(auto, using(crate::proofs::FileLists::tree_more))]
fn put_file(alloc: Global, files: &mut Files, path: String, bytes: &[u8]) -> Result<(), AllocError>
    ensures { OnOk result (tree_of files.new.items ≡ tree_of files.old.items ++ file (string_bytes path) bytes.now ∷ []) }
{
    let bytes = Vec::from_slice(alloc, bytes)?;
    files.push((path, bytes))?;
    Ok(())
}

fn put_objects(alloc: Global, files: &mut Files, draws: &[u32], size: u32) -> Result<(), AllocError>
    ensures { OnOk result (tree_of files.new.items ≡ tree_of files.old.items ++ flat_map (object_files draws.now) (range_with_len 0 size)) }
{
    for number in 0..size {
        put_object(alloc, files, draws, number)?;
    }
    Ok(())
}

// The script and the game object with this number.
fn put_object(
    alloc: Global,
    files: &mut Files,
    draws: &[u32],
    number: u32,
) -> Result<(), AllocError>
    ensures { OnOk result (tree_of files.new.items ≡ tree_of files.old.items ++ object_files draws.now number) }
{
    put_script(alloc, files, draws, number)?;
    put_game_object(alloc, files, number)?;
    Ok(())
}

fn put_script(
    alloc: Global,
    files: &mut Files,
    draws: &[u32],
    number: u32,
) -> Result<(), AllocError>
    ensures { OnOk result (tree_of files.new.items ≡ tree_of files.old.items ++ file (script_path number) (script_text (draw_at draws.now number)) ∷ []) }
{
    let text = script_text(alloc, draw_at(draws, number as usize))?;
    put_file(alloc, files, script_path(alloc, number)?, text.as_bytes())
}

fn put_game_object(alloc: Global, files: &mut Files, number: u32) -> Result<(), AllocError>
    ensures { OnOk result (tree_of files.new.items ≡ tree_of files.old.items ++ file (object_path number) (printed [] (object_fields number)) ∷ []) }
{
    let text = object_text(alloc, number)?;
    put_file(alloc, files, object_path(alloc, number)?, text.as_slice())
}

fn script_text(alloc: Global, speed: u32) -> Result<String, AllocError>
    ensures { IfOk result (λ s. string_bytes s ≡ script_text speed) }
{
    format!(in alloc; "go.property(\"speed\", {speed})\n")
}

fn put_first(alloc: Global, files: &mut Files, draws: &[u32], size: u32) -> Result<(), AllocError>
    ensures { OnOk result (tree_of files.new.items ≡ tree_of files.old.items ++ first_file draws.now size ∷ []) }
{
    let text = first_text(alloc, draw_at(draws, size as usize))?;
    put_file(alloc, files, collection_path(alloc, 0)?, text.as_slice())
}

// The collections that have another one in them.
fn put_others(alloc: Global, files: &mut Files, draws: &[u32], size: u32) -> Result<(), AllocError>
    requires { 1 ≤ size }
    ensures { OnOk result (tree_of files.new.items ≡ tree_of files.old.items ++ map (outer_file draws.now size) (range_with_len 0 (size - 1))) }
{
    for number in 0..size - 1 {
        put_other(alloc, files, draws, size, number)?;
    }
    Ok(())
}

fn put_other(
    alloc: Global,
    files: &mut Files,
    draws: &[u32],
    size: u32,
    number: u32,
) -> Result<(), AllocError>
    requires { number + 1 < size }
    ensures { OnOk result (tree_of files.new.items ≡ tree_of files.old.items ++ outer_file draws.now size number ∷ []) }
{
    let place = size as usize + 2 * number as usize;
    let text = outer_text(
        alloc,
        number,
        draw_at(draws, place + 1),
        draw_at(draws, place + 2),
    )?;
    put_file(
        alloc,
        files,
        collection_path(alloc, number + 1)?,
        text.as_slice(),
    )
}
