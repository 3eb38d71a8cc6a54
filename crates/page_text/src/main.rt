//! A test: the page in the program is the file page.html, where the page is written.
#![tactic(auto)]

use js_page::page;
use std::{fs, io};

fn main(rt: HostRuntime) -> io::Result<()> {
    let file = fs::read_to_string(&rt, "page.html")?;
    if file.as_str() == page() {
        println!(rt; "the page is page.html")
    } else {
        println!(rt; "the page is not page.html: run crates/js_page/make")
    }
}
