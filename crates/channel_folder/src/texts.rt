//! The two playlists of a rendition are read.
ghost use Rattle.std.specs.Prelude.{◌≡◌, IfErr, IfOk};
ghost use Rattle.std.specs.Option.{option_map};
ghost use Rattle.folder.specs.declared.read_fault.FolderReadFault as TheFault;
ghost use Rattle.channel_folder.specs.Files;
ghost use Rattle.channel_folder.specs.ReadTexts.{AreTexts, IsFound};
ghost use Rattle.channel_folder.specs.Shut.{HasShutText, CannotRead};

use crate::by_name::FilesByName;
use crate::file_names::{frames_file, media_file};
use crate::kept::Kept;
use folder::FolderReadFault;
use std::alloc::Global;
use std::marker::Model;

/// The bytes of a rendition's playlists, where there are such files.
#[derive(Drop)]
pub(crate) struct Texts {
    pub media: Option<Vec<u8>>,
    pub frames: Option<Vec<u8>>,
}

impl Model for Texts {
    ghost use Rattle.std.specs.Option.{option_map};
    ghost use Rattle.channel_folder.specs.ReadTexts.{TextsValue};

    ghost Value = { TextsValue };

    ghost view = { λ t. record { media = option_map (λ v. v.items) t.media; frames = option_map (λ v. v.items) t.frames } };
}

pub(crate) fn read_texts<F: FilesByName>(
    alloc: Global,
    folder: &F,
    name: &str,
) -> Result<Texts, Kept<FolderReadFault>>
    ensures ok { IfOk result (AreTexts (F.gives folder.now) (F.lacks folder.now) name.now) }
    ensures unread { IfErr result (λ kept. kept.fault ≡ FolderReadFault.Unread → F.refuses folder.now) }
    ensures shut { let shut = CannotRead (F.refuses folder.now) (F.shuts folder.now) in
        IfErr result (λ kept. kept.fault ≡ FolderReadFault.Unread →
        HasShutText shut (F.gives folder.now) (F.lacks folder.now) (Files.media_file name.now) (Files.frames_file name.now)) }
{
    let media = media_file(alloc, name)?;
    let frames = frames_file(alloc, name)?;
    read_both(alloc, folder, media.as_str(), frames.as_str())
}

/// The same, of the files of these names. Only a file wants memory here.
fn read_both<F: FilesByName>(
    alloc: Global,
    folder: &F,
    media: &str,
    frames: &str,
) -> Result<Texts, Kept<FolderReadFault>>
    ensures media { IfOk result (λ texts. IsFound (F.gives folder.now) (F.lacks folder.now) media.now texts.media) }
    ensures frames { IfOk result (λ texts. IsFound (F.gives folder.now) (F.lacks folder.now) frames.now texts.frames) }
    ensures unread { IfErr result (λ kept. kept.fault ≡ FolderReadFault.Unread → F.refuses folder.now) }
    ensures shut { IfErr result (λ kept. kept.fault ≡ FolderReadFault.Unread →
        HasShutText (CannotRead (F.refuses folder.now) (F.shuts folder.now)) (F.gives folder.now) (F.lacks folder.now) media.now frames.now) }
    ensures no_memory { IfErr result (λ kept. kept.fault ≡ FolderReadFault.NoMemory → F.wants folder.now) }
{
    let first = read_text(alloc, folder, media)?;
    let second = read_text(alloc, folder, frames)?;
    Ok(Texts {
        media: first,
        frames: second,
    })
}

/// The bytes of one file, where there is such a file.
fn read_text<F: FilesByName>(
    alloc: Global,
    folder: &F,
    file: &str,
) -> Result<Option<Vec<u8>>, Kept<FolderReadFault>>
    ensures found { IfOk result (λ found. IsFound (F.gives folder.now) (F.lacks folder.now) file.now (option_map (λ v. v.items) found)) }
    ensures shut { IfErr result (λ kept. kept.fault ≡ FolderReadFault.Unread → CannotRead (F.refuses folder.now) (F.shuts folder.now) file.now) }
    ensures no_memory { IfErr result (λ kept. kept.fault ≡ FolderReadFault.NoMemory → F.wants folder.now) }
{
    Ok(folder.read_file(alloc, file)?)
}
