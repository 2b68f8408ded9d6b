// What the program does on examples.
use crate::arguments::{CheckUsage, parse};
use crate::work::there_and_back;
use breaks::labels::LabelMap;
use geometry::frame::Frame;
use plates::work::{count_lost, numbers};
use std::alloc::{AllocError, Global};
use std::test::Fail;

// What is said of the words of a command line.
fn said(heap: Global, words: &[&str]) -> Result<String, AllocError> {
    match parse(words) {
        Ok(job) => {
            let levels = job.levels;
            let x = job.at.x;
            let y = job.at.y;
            format!(in heap; "{levels} levels at {x} {y}")
        }
        Err(usage) => {
            let usage = CheckUsage(usage);
            format!(in heap; "{usage}")
        }
    }
}

#[test]
fn arguments(rt: HostRuntime) -> Result<(), Fail> {
    let heap = rt.alloc();
    assert_eq!(rt;
        said(heap, &["show"])?.as_str(),
        "unknown command show: the only one is check"
    );
    assert_eq!(rt;
        said(heap, &["check"])?.as_str(),
        "the plate is missing: check PLATE.pgm --levels N"
    );
    assert_eq!(rt;
        said(heap, &["check", "p"])?.as_str(),
        "--levels is missing"
    );
    assert_eq!(rt;
        said(heap, &["check", "p", "--level"])?.as_str(),
        "unknown flag --level: there are --levels, --labels and --at"
    );
    assert_eq!(rt;
        said(heap, &["check", "p", "--at", "1"])?.as_str(),
        "a value is missing after --at"
    );
    assert_eq!(rt;
        said(heap, &["check", "p", "--levels", "4294967296"])?.as_str(),
        "--levels takes a number from 0 to 4294967295, and 4294967296 is none"
    );
    assert_eq!(rt;
        said(heap, &["check", "p", "--at", "7", "9", "--levels", "2"])?.as_str(),
        "2 levels at 7 9"
    );
    Ok(())
}

#[test]
fn comes_back(rt: HostRuntime) -> Result<(), Fail> {
    let samples = [9u16, 9, 9, 700, 710, 9, 8, 650, 720, 65535];
    let labels = [1u16, 1, 1, 2, 2, 1, 1, 2, 2, 2];
    let frame = Frame::new(1, 1, 6, 3, 3)?;
    let source = LabelMap::new(frame, &labels)?;
    let mut plane = numbers(rt.alloc(), &samples)?;
    let bands = there_and_back(&frame, &source, plane.as_mut_slice())?;
    assert!(rt; bands.least < 0 && bands.greatest > 700);
    assert_eq!(rt; count_lost(plane.as_slice(), &samples), 0);
    Ok(())
}
