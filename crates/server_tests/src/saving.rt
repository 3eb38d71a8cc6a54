//! What a kernel shows goes into a notebook, which is saved on a shelf.
ghost use Rattle.std.specs.Prelude.{None};

use crate::shown::{read_all, request, take};
use jk_core::Kernel;
use jk_language::Language;
use jk_log::What;
use js_files::FileShelf;
use js_shelf::{
    Device, DeviceFault, Item, Kind, MemoryShelf, Names, Opened, Place, Shelf, ShelfRefusal,
};
use json_form::Text;
use nb_doc::read_notebook;
use nb_record::Recorder;
use std::alloc::Global;
use std::process::Abort;
use std::test::Fail;
use test_language::TestLanguage;

/// The file of a code cell `c1` that wrote the line `42` and has the same line as its source.
fn file_of_c1(alloc: Global, count: u64) -> Result<String, Fail> {
    Ok(format!(in alloc;
        "{{\n  \"cells\": [\n    {{\n      \"cell_type\": \"code\",\n      \"execution_count\": {count},\n      \"id\": \"c1\",\n      \"metadata\": {{}},\n      \"outputs\": [\n        {{\n          \"name\": \"stdout\",\n          \"output_type\": \"stream\",\n          \"text\": [\n            \"42\\n\"\n          ]\n        }}\n      ],\n      \"source\": [\n        \"42\\n\"\n      ]\n    }}\n  ],\n  \"metadata\": {{}},\n  \"nbformat\": 4,\n  \"nbformat_minor\": 5\n}}\n"
    )?)
}

/// A recorder over an empty notebook.
fn recorder(alloc: Global) -> Result<Recorder, Fail> {
    Ok(Recorder::empty(alloc, Text::from_str(alloc, "n.ipynb")?))
}

/// Takes a cell that writes the line `42`, with this metadata.
fn take_cell<L: Language>(
    alloc: Global,
    kernel: &mut Kernel<L>,
    metadata: &str,
) -> Result<(), Fail> {
    let text = format!(in alloc;
        "{{\"content\":{{\"code\":\"42\\n\"}},\"header\":{{\"msg_id\":\"m\",\"msg_type\":\"execute_request\",\"session\":\"s\"}},\"metadata\":{metadata}}}"
    )?;
    take(kernel, 0, What::Shell(request(alloc, text.as_str())?))?;
    read_all(alloc, kernel)
}

/// A slice of so many turns, whose entries the recorder is given.
fn record<L: Language>(
    kernel: &mut Kernel<L>,
    recorder: &mut Recorder,
    turns: u64,
) -> Result<(), Fail> {
    let _ = kernel.work(turns);
    let marks = kernel.pending_marks();
    for entry in &kernel.take_pending(marks)? {
        recorder.entry(entry)?;
    }
    Ok(())
}

/// Whether this is the file at the recorder's path.
fn holds(shelf: &mut impl Shelf, text: &str) -> bool {
    match shelf.get("n.ipynb") {
        Ok(Item::File(bytes)) => bytes.as_slice() == text.as_bytes(),
        _ => false,
    }
}

/// A cell is run twice, and saved after each; the second time in two slices.
fn runs_twice<L: Language>(
    rt: &impl Abort,
    alloc: Global,
    kernel: &mut Kernel<L>,
) -> Result<(), Fail> {
    let mut shelf = MemoryShelf::new(alloc)?;
    let mut recorder = recorder(alloc)?;
    take_cell(alloc, kernel, "{\"cellId\":\"c1\"}")?;
    record(kernel, &mut recorder, 1000)?;
    assert_eq!(rt; recorder.save(&mut shelf), Ok(()));
    assert!(rt; holds(&mut shelf, file_of_c1(alloc, 1)?.as_str()));
    take_cell(alloc, kernel, "{\"cellId\":\"c1\"}")?;
    record(kernel, &mut recorder, 1)?;
    record(kernel, &mut recorder, 1000)?;
    assert_eq!(rt; recorder.save(&mut shelf), Ok(()));
    assert!(rt; holds(&mut shelf, file_of_c1(alloc, 2)?.as_str()));
    Ok(())
}

#[test]
fn a_cell_of_a_kernel_is_saved(rt: HostRuntime) -> Result<(), Fail> {
    let mut kernel: Kernel<TestLanguage> = Kernel::new(rt.alloc())?;
    runs_twice(&rt, rt.alloc(), &mut kernel)
}

/// A notebook of 4.4, whose cells have no ids but for the second, then a cell that names none.
fn runs_in_an_older_notebook<L: Language>(
    rt: &impl Abort,
    alloc: Global,
    kernel: &mut Kernel<L>,
) -> Result<(), Fail> {
    let notebook = read_notebook(
        alloc,
        b"{\"cells\":[{\"cell_type\":\"raw\",\"metadata\":{},\"source\":\"a\"},{\"cell_type\":\"raw\",\"id\":\"run-1\",\"metadata\":{},\"source\":\"b\"},{\"cell_type\":\"raw\",\"metadata\":{},\"source\":\"c\"}],\"metadata\":{},\"nbformat\":4,\"nbformat_minor\":4}",
    )?;
    let mut recorder = Recorder::new(alloc, Text::from_str(alloc, "n.ipynb")?, notebook);
    take_cell(alloc, kernel, "{}")?;
    record(kernel, &mut recorder, 1000)?;
    let cells = recorder.notebook().cells.as_slice();
    assert_eq!(rt; cells.len(), 4);
    assert_eq!(rt; cells[0].id.as_str(), "run-2");
    assert_eq!(rt; cells[1].id.as_str(), "run-1");
    assert_eq!(rt; cells[2].id.as_str(), "run-3");
    assert_eq!(rt; cells[3].id.as_str(), "run-4");
    Ok(())
}

#[test]
fn an_older_notebook_goes_on(rt: HostRuntime) -> Result<(), Fail> {
    let mut kernel: Kernel<TestLanguage> = Kernel::new(rt.alloc())?;
    runs_in_an_older_notebook(&rt, rt.alloc(), &mut kernel)
}

/// A device in memory whose call of this number fails, counted down to 0.
#[derive(Drop)]
struct Failing {
    shelf: MemoryShelf,
    calls: u64,
}

impl Failing {
    /// Counts a call.
    fn call(&mut self) -> Result<(), DeviceFault> {
        match self.calls {
            0 => Ok(()),
            1 => {
                self.calls = 0;
                Err(DeviceFault::Failed)
            }
            more => {
                self.calls = more - 1;
                Ok(())
            }
        }
    }
}

// It does not tell what it holds.
impl Device for Failing {
    ghost contents = { λ _. None };

    fn kind(&mut self, place: &Place) -> Result<Kind, DeviceFault> {
        self.call()?;
        Device::kind(&mut self.shelf, place)
    }

    fn open(&mut self, place: &Place) -> Result<Opened, DeviceFault> {
        self.call()?;
        Device::open(&mut self.shelf, place)
    }

    fn names(&mut self, place: &Place) -> Result<Names, DeviceFault> {
        self.call()?;
        self.shelf.names(place)
    }

    fn write(&mut self, place: &Place, bytes: &[u8]) -> Result<(), DeviceFault> {
        self.call()?;
        self.shelf.write(place, bytes)
    }

    fn make_folder(&mut self, place: &Place) -> Result<(), DeviceFault> {
        self.call()?;
        self.shelf.make_folder(place)
    }

    fn move_item(&mut self, from: &Place, to: &Place) -> Result<(), DeviceFault> {
        self.call()?;
        self.shelf.move_item(from, to)
    }

    fn remove_file(&mut self, place: &Place) -> Result<(), DeviceFault> {
        self.call()?;
        self.shelf.remove_file(place)
    }

    fn remove_folder(&mut self, place: &Place) -> Result<bool, DeviceFault> {
        self.call()?;
        self.shelf.remove_folder(place)
    }
}

const EMPTY_FILE: &str =
    "{\n  \"cells\": [],\n  \"metadata\": {},\n  \"nbformat\": 4,\n  \"nbformat_minor\": 5\n}\n";

/// A save asks the device three times. Where one of these fails it is refused, and the next save is made. Where the fourth call
/// fails the first save is made, and the second is refused.
#[test]
fn a_failing_device_refuses_a_save(rt: HostRuntime) -> Result<(), Fail> {
    let alloc = rt.alloc();
    let recorder = recorder(alloc)?;
    for calls in 1..5 {
        let shelf = MemoryShelf::new(alloc)?;
        let mut shelf = FileShelf::over(alloc, Failing { shelf, calls });
        if calls == 4 {
            assert_eq!(rt; recorder.save(&mut shelf), Ok(()));
            assert_eq!(rt; shelf.failures(), 0);
        }
        assert_eq!(rt; recorder.save(&mut shelf), Err(ShelfRefusal::Device));
        assert_eq!(rt; shelf.failures(), 1);
        assert_eq!(rt; recorder.save(&mut shelf), Ok(()));
        assert!(rt; holds(&mut shelf, EMPTY_FILE));
    }
    Ok(())
}

/// A save is refused where the put is, and nothing is there then.
#[test]
fn a_put_that_is_refused_refuses_a_save(rt: HostRuntime) -> Result<(), Fail> {
    let alloc = rt.alloc();
    let mut shelf = MemoryShelf::new(alloc)?;
    let mut recorder = recorder(alloc)?;
    recorder.moved(Text::from_str(alloc, "a/n.ipynb")?);
    assert_eq!(rt; recorder.save(&mut shelf), Err(ShelfRefusal::Missing));
    recorder.moved(Text::from_str(alloc, "../n.ipynb")?);
    assert_eq!(rt; recorder.save(&mut shelf), Err(ShelfRefusal::BadPath));
    assert_eq!(rt; shelf.put("n.ipynb", Item::Folder), Ok(()));
    recorder.moved(Text::from_str(alloc, "n.ipynb")?);
    assert_eq!(rt; recorder.save(&mut shelf), Err(ShelfRefusal::Exists));
    Ok(())
}
