use lines::printing::Report;
use sheet_runs::runs::run_sheet;
use std::alloc::Global;
use std::process::Abort;
use std::test::Fail;

// What the run of a sheet prints, made as the program `bench` makes it.
pub(crate) fn printed(heap: Global, sheet: &[u8]) -> Result<String, Fail> {
    let lines = run_sheet(heap, sheet)?;
    let report = Report { lines: &lines };
    Ok(report.to_string(heap)?)
}

// Whether the run of a sheet prints this text.
pub(crate) fn prints(
    rt: &(impl Abort + AllocGlobal),
    sheet: &[u8],
    expected: &str,
) -> Result<(), Fail> {
    let text = printed(rt.alloc(), sheet)?;
    assert_eq!(rt; text.as_str(), expected);
    Ok(())
}
