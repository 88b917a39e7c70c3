// The messages of errors.
use std::alloc::{AllocError, Global};
use std::error::Error;
use std::test::Fail;
use ts_agg::AggFault;
use ts_labels::FilterFault;
use ts_range::RangeFault;
use ts_spec::ValueFault;

// Whether an error displays as this text.
fn says<F: Error>(alloc: Global, fault: F, text: &str) -> Result<bool, AllocError> {
    Ok(fault.to_string(alloc)?.as_str() == text)
}

#[test]
fn each_fault_has_a_text(rt: HostRuntime) -> Result<(), Fail> {
    let alloc = rt.alloc();
    assert!(rt; says(alloc, ValueFault::NotANumber, "not a number")?);
    assert!(rt; says(alloc, ValueFault::OutOfRange, "value out of range")?);
    assert!(rt; says(alloc, AggFault::NotInProfile, "aggregator not supported")?);
    assert!(rt; says(alloc, AggFault::Unknown, "unknown aggregator")?);
    assert!(rt; says(alloc, FilterFault::NoOperator, "a filter without `=`")?);
    assert!(rt; says(alloc, FilterFault::EmptyLabel, "a filter without a label")?);
    assert!(rt;
        says(
            alloc,
            FilterFault::EmptyList,
            "an empty value in the list of a filter"
        )?
    );
    assert!(rt; says(alloc, RangeFault::EmptyRows, "too many rows")?);
    Ok(())
}
