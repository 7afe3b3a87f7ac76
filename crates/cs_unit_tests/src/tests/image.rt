//! Images of small collections, against the bytes of their files.
ghost use Rattle.std.specs.Prelude.{IfOk};
ghost use Rattle.cs_file.specs.Writable.{CanBeWritten};
ghost use Rattle.cs_merge.specs.Merging.{IsOfFile};

use crate::tests::rows::same;
use cs_base::{MemSink, Memory};
use cs_build::image;
use cs_docs::{Collected, read_docs, rows_of};
use cs_file::{Image, write_index};
use cs_model_index::TARGET;
use cs_worked::{NO_DOCUMENTS, ONE_DOCUMENT, USUALLY_WEIGHED, WEIGHED_DOCUMENT, WorkedFile};
use std::alloc::Global;
use std::test::Fail;

const FILES: &[WorkedFile] = &[
    NO_DOCUMENTS,
    ONE_DOCUMENT,
    WEIGHED_DOCUMENT,
    USUALLY_WEIGHED,
];

#[test]
fn the_file_of_a_collection_has_these_bytes(rt: HostRuntime) -> Result<(), Fail> {
    for row in FILES {
        let image = image_of(rt.alloc(), row.collection.as_bytes())?;
        let file = file_of(rt.alloc(), &image)?;
        same(&rt, &file.as_slice(), &row.file, row.collection);
    }
    Ok(())
}

/// The image of a collection that is accepted.
pub(crate) fn image_of(alloc: Global, collection: &[u8]) -> Result<Image, Memory>
    ensures writable { IfOk result CanBeWritten }
    ensures file { IfOk result IsOfFile }
{
    let Ok(Collected { docs, weights }) = read_docs(alloc, collection) else {
        return Err(Memory);
    };
    let Ok(rows) = rows_of(alloc, &docs, weights) else {
        return Err(Memory);
    };
    match image(alloc, rows, docs, TARGET, weights) {
        Ok(image) => Ok(image),
        Err(_) => Err(Memory),
    }
}

/// The bytes of an image's file.
pub(crate) fn file_of(alloc: Global, image: &Image) -> Result<Vec<u8>, Memory>
    requires { CanBeWritten image.now }
{
    let mut sink = MemSink::new(alloc);
    match write_index(alloc, image, &mut sink) {
        Ok(()) => Ok(sink.into_bytes()),
        Err(_) => Err(Memory),
    }
}
