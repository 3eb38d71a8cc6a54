//! Shelves of files.

use js_files::FileShelf;
use js_shelf::{Bytes, Item, MemoryShelf, Opening, Shelf, ShelfRefusal, is_path};
use std::alloc::Global;
use std::fs;
use std::fs::OpenFile;
use std::os::unix::fs::symlink;
use std::process::Abort;
use std::test::Fail;
use test_shelf::FailingShelf;

fn file(alloc: Global, text: &[u8]) -> Result<Item, Fail> {
    Ok(Item::File(Bytes::from(Vec::from_slice(alloc, text)?)))
}

/// What stands at a path: a file's bytes, a folder, or why nothing is told.
fn expect_file(rt: &impl Abort, shelf: &mut impl Shelf, path: &str, text: &[u8]) {
    match shelf.get(path) {
        Ok(Item::File(bytes)) => assert_eq!(rt; bytes.as_slice(), text),
        Ok(Item::Folder) => panic!(rt; "a folder at {path}"),
        Err(refusal) => panic!(rt; "{path}: {refusal:?}"),
    }
}

fn expect_folder(rt: &impl Abort, shelf: &mut impl Shelf, path: &str) {
    assert!(rt; matches!(shelf.get(path), Ok(Item::Folder)), "{path}");
}

/// Opens what stands at a path.
fn opened(rt: &impl Abort, shelf: &mut impl Shelf, path: &str) -> Opening {
    match shelf.open(path) {
        Ok(opening) => opening,
        Err(refusal) => panic!(rt; "{path}: {refusal:?}"),
    }
}

/// What was opened is read: a file's bytes.
fn expect_read(rt: &impl Abort, opening: Opening, text: &[u8]) {
    match opening.read() {
        Ok(Item::File(bytes)) => assert_eq!(rt; bytes.as_slice(), text),
        Ok(Item::Folder) => panic!(rt; "a folder"),
        Err(fault) => panic!(rt; "{fault:?}"),
    }
}

fn expect_names(rt: &impl Abort, shelf: &mut impl Shelf, path: &str, texts: &[&str]) {
    match shelf.list(path) {
        Ok(names) => {
            assert_eq!(rt; names.as_slice().len(), texts.len(), "{path}");
            for (name, text) in names.as_slice().iter().zip(texts) {
                assert_eq!(rt; name.as_str(), *text);
            }
        }
        Err(refusal) => panic!(rt; "{path}: {refusal:?}"),
    }
}

fn puts_and_gets(rt: &impl Abort, alloc: Global, shelf: &mut impl Shelf) -> Result<(), Fail> {
    expect_folder(rt, shelf, "");
    expect_names(rt, shelf, "", &[]);
    assert_eq!(rt; shelf.put("b.txt", file(alloc, b"one")?), Ok(()));
    assert_eq!(rt; shelf.put("b.txt", file(alloc, b"two")?), Ok(()));
    expect_file(rt, shelf, "b.txt", b"two");
    assert_eq!(rt; shelf.put("a", Item::Folder), Ok(()));
    assert_eq!(rt; shelf.put("a/c d", file(alloc, b"")?), Ok(()));
    assert_eq!(rt; shelf.put("a/e", Item::Folder), Ok(()));
    assert_eq!(rt; shelf.put("a/e/f", file(alloc, b"f")?), Ok(()));
    assert_eq!(rt; shelf.put("a!", Item::Folder), Ok(()));
    expect_names(rt, shelf, "", &["a", "a!", "b.txt"]);
    expect_names(rt, shelf, "a", &["c d", "e"]);
    assert_eq!(rt;
        shelf.put("a", file(alloc, b"x")?),
        Err(ShelfRefusal::Exists)
    );
    assert_eq!(rt; shelf.put("a", Item::Folder), Err(ShelfRefusal::Exists));
    assert_eq!(rt; shelf.put("b.txt", Item::Folder), Err(ShelfRefusal::Exists));
    assert_eq!(rt;
        shelf.put("b.txt/x", Item::Folder),
        Err(ShelfRefusal::Missing)
    );
    assert_eq!(rt; shelf.put("x/y", Item::Folder), Err(ShelfRefusal::Missing));
    assert_eq!(rt; shelf.put("", Item::Folder), Err(ShelfRefusal::BadPath));
    assert_eq!(rt; shelf.get("a/../b.txt").err(), Some(ShelfRefusal::BadPath));
    assert_eq!(rt; shelf.get("nothing").err(), Some(ShelfRefusal::Missing));
    assert_eq!(rt; shelf.get("b.txt/x").err(), Some(ShelfRefusal::Missing));
    assert_eq!(rt; shelf.list("b.txt").err(), Some(ShelfRefusal::Missing));
    Ok(())
}

/// A file that was opened keeps its bytes, whatever is put, moved or deleted afterwards.
fn opens_and_reads(rt: &impl Abort, alloc: Global, shelf: &mut impl Shelf) -> Result<(), Fail> {
    let first = opened(rt, shelf, "b.txt");
    assert_eq!(rt; shelf.put("b.txt", file(alloc, b"the third")?), Ok(()));
    let second = opened(rt, shelf, "b.txt");
    assert_eq!(rt; shelf.rename("b.txt", "c.txt"), Ok(()));
    assert_eq!(rt; shelf.delete("c.txt"), Ok(()));
    expect_read(rt, second, b"the third");
    expect_read(rt, first, b"two");
    assert_eq!(rt; shelf.put("b.txt", file(alloc, b"two")?), Ok(()));
    assert!(rt; matches!(opened(rt, shelf, "a").read(), Ok(Item::Folder)));
    assert_eq!(rt; shelf.open("a/../b.txt").err(), Some(ShelfRefusal::BadPath));
    assert_eq!(rt; shelf.open("nothing").err(), Some(ShelfRefusal::Missing));
    assert_eq!(rt; shelf.open("b.txt/x").err(), Some(ShelfRefusal::Missing));
    Ok(())
}

fn renames_and_deletes(rt: &impl Abort, shelf: &mut impl Shelf) {
    assert_eq!(rt; shelf.rename("a", "a/e/g"), Err(ShelfRefusal::BadPath));
    assert_eq!(rt; shelf.rename("", "z"), Err(ShelfRefusal::BadPath));
    assert_eq!(rt; shelf.rename("z", "y"), Err(ShelfRefusal::Missing));
    assert_eq!(rt; shelf.rename("a", "y/z"), Err(ShelfRefusal::Missing));
    assert_eq!(rt; shelf.rename("a", "b.txt"), Err(ShelfRefusal::Exists));
    assert_eq!(rt; shelf.rename("a", "a!/h"), Ok(()));
    assert_eq!(rt; shelf.get("a/e/f").err(), Some(ShelfRefusal::Missing));
    expect_file(rt, shelf, "a!/h/e/f", b"f");
    expect_names(rt, shelf, "a!/h", &["c d", "e"]);
    expect_names(rt, shelf, "", &["a!", "b.txt"]);
    assert_eq!(rt; shelf.delete("a!/h/e"), Err(ShelfRefusal::NotEmpty));
    assert_eq!(rt; shelf.delete("a!/h/e/f"), Ok(()));
    assert_eq!(rt; shelf.delete("a!/h/e"), Ok(()));
    assert_eq!(rt; shelf.delete("a!/h/e"), Err(ShelfRefusal::Missing));
    assert_eq!(rt; shelf.delete(""), Err(ShelfRefusal::BadPath));
    expect_names(rt, shelf, "a!/h", &["c d"]);
    assert_eq!(rt; shelf.failures(), 0);
}

#[test]
fn a_shelf_in_memory(rt: HostRuntime) -> Result<(), Fail> {
    let mut shelf = MemoryShelf::new(rt.alloc())?;
    puts_and_gets(&rt, rt.alloc(), &mut shelf)?;
    opens_and_reads(&rt, rt.alloc(), &mut shelf)?;
    renames_and_deletes(&rt, &mut shelf);
    Ok(())
}

/// A folder of the system with nothing in it.
fn emptied(rt: &HostRuntime, root: &str) -> Result<(), Fail> {
    let _ = fs::remove_dir_all(rt, root);
    fs::create_dir(rt, root)?;
    Ok(())
}

#[test]
fn a_shelf_in_a_folder(rt: HostRuntime) -> Result<(), Fail> {
    emptied(&rt, "shelf_of_files")?;
    let mut shelf = FileShelf::new(rt.clone()?, "shelf_of_files")?;
    puts_and_gets(&rt, rt.alloc(), &mut shelf)?;
    opens_and_reads(&rt, rt.alloc(), &mut shelf)?;
    renames_and_deletes(&rt, &mut shelf);
    let text = fs::read(&rt, "shelf_of_files/b.txt")?;
    assert_eq!(rt; text.as_slice(), b"two".as_slice());
    fs::remove_dir_all(&rt, "shelf_of_files")?;
    assert_eq!(rt; shelf.get("b.txt").err(), Some(ShelfRefusal::Missing));
    Ok(())
}

#[test]
fn links_and_leftovers(rt: HostRuntime) -> Result<(), Fail> {
    emptied(&rt, "shelf_of_links")?;
    fs::create_dir(&rt, "shelf_of_links/root")?;
    fs::create_dir(&rt, "shelf_of_links/outside")?;
    fs::write(&rt, "shelf_of_links/outside/secret", "secret")?;
    symlink(&rt, "../outside", "shelf_of_links/root/way")?;
    symlink(&rt, "../outside/secret", "shelf_of_links/root/file")?;
    // Crashes left halves of new files, and somebody made a folder of such a name.
    fs::write(&rt, "shelf_of_links/root/\\new1", "half")?;
    fs::create_dir(&rt, "shelf_of_links/root/\\new2")?;
    fs::create_dir(&rt, "shelf_of_links/root/d")?;
    fs::write(&rt, "shelf_of_links/root/d/\\new7", "half")?;
    let mut shelf = FileShelf::new(rt.clone()?, "shelf_of_links/root")?;
    expect_names(&rt, &mut shelf, "", &["d"]);
    assert_eq!(rt; shelf.delete("d"), Ok(()));
    assert_eq!(rt; shelf.get("way/secret").err(), Some(ShelfRefusal::Missing));
    assert_eq!(rt; shelf.get("file").err(), Some(ShelfRefusal::Missing));
    assert_eq!(rt; shelf.open("way/secret").err(), Some(ShelfRefusal::Missing));
    assert_eq!(rt; shelf.open("file").err(), Some(ShelfRefusal::Missing));
    assert_eq!(rt; shelf.list("way").err(), Some(ShelfRefusal::Missing));
    let item = file(rt.alloc(), b"mine")?;
    assert_eq!(rt; shelf.put("way/secret", item), Err(ShelfRefusal::Missing));
    let item = file(rt.alloc(), b"mine")?;
    assert_eq!(rt; shelf.put("file", item), Err(ShelfRefusal::Exists));
    let item = file(rt.alloc(), b"whole")?;
    assert_eq!(rt; shelf.put("n", item), Ok(()));
    expect_file(&rt, &mut shelf, "n", b"whole");
    expect_names(&rt, &mut shelf, "", &["n"]);
    let secret = fs::read(&rt, "shelf_of_links/outside/secret")?;
    assert_eq!(rt; secret.as_slice(), b"secret".as_slice());
    fs::remove_dir_all(&rt, "shelf_of_links")?;
    Ok(())
}

#[test]
fn paths(rt: HostRuntime) -> Result<(), Fail> {
    for path in [
        "",
        "a",
        "a/b.ipynb",
        "...",
        "a b/\u{e4}",
        "1/2/3/4/5/6/7/8/9/10/11/12/13/14/15/16",
    ] {
        assert!(rt; is_path(path), "{path}");
    }
    for path in [
        "/",
        "a/",
        "/a",
        "a//b",
        ".",
        "a/..",
        "../a",
        "a\\b",
        "a\u{1f}",
        "a/\n",
        "1/2/3/4/5/6/7/8/9/10/11/12/13/14/15/16/17",
    ] {
        assert!(rt; !is_path(path), "{path}");
    }
    let mut long = String::new(rt.alloc());
    for _ in 0..255 {
        long.push('x')?;
    }
    assert!(rt; is_path(long.as_str()));
    long.push('x')?;
    assert!(rt; !is_path(long.as_str()));
    Ok(())
}

/// One of each call, as far as the first refusal.
fn one_of_each(alloc: Global, shelf: &mut impl Shelf) -> Result<(), ShelfRefusal> {
    shelf.put("a", Item::Folder)?;
    shelf.put(
        "a/b",
        Item::File(Bytes::from(Vec::from_slice(alloc, b"b")?)),
    )?;
    shelf.get("a/b")?;
    shelf.open("a/b")?.read()?;
    shelf.rename("a/b", "c")?;
    shelf.list("a")?;
    shelf.delete("a")
}

#[test]
fn a_device_that_fails_at_each_call(rt: HostRuntime) -> Result<(), Fail> {
    for fault in 1..11 {
        let mut shelf = FailingShelf::new(rt.alloc())?;
        shelf.fail_at(fault);
        let result = one_of_each(rt.alloc(), &mut shelf);
        if fault <= 8 {
            assert_eq!(rt; result, Err(ShelfRefusal::Device));
            assert_eq!(rt; shelf.failures(), 1);
        } else {
            assert_eq!(rt; result, Ok(()));
            assert_eq!(rt; shelf.failures(), 0);
        }
    }
    Ok(())
}

#[test]
fn a_file_that_is_too_long(rt: HostRuntime) -> Result<(), Fail> {
    emptied(&rt, "shelf_of_long_files")?;
    let file = fs::create(&rt, "shelf_of_long_files/long")?;
    file.set_len((1 << 30) + 1)?;
    let mut shelf = FileShelf::new(rt.clone()?, "shelf_of_long_files")?;
    assert_eq!(rt; shelf.get("long").err(), Some(ShelfRefusal::Device));
    assert_eq!(rt; shelf.failures(), 1);
    assert_eq!(rt; shelf.open("long").err(), Some(ShelfRefusal::Device));
    assert_eq!(rt; shelf.failures(), 2);
    fs::remove_dir_all(&rt, "shelf_of_long_files")?;
    Ok(())
}
