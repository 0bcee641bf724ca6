//! Words that are accepted and words that are refused.
use crate::{Job, job_of_words};
use std::alloc::{AllocError, Global};
use std::test::Fail;

fn job(alloc: Global, words: &[&str]) -> Result<Option<Job>, AllocError> {
    let mut owned = Vec::new(alloc);
    for word in words {
        owned.push(String::from_str(alloc, word)?)?;
    }
    Ok(job_of_words(&owned))
}

#[test]
fn three_numbers_within_their_limits_are_a_job(rt: HostRuntime) -> Result<(), Fail> {
    let alloc = rt.alloc();
    let all = job(alloc, ["1000", "0", "18446744073709551615"].as_slice())?;
    assert_eq!(rt;
        all,
        Some(Job {
            width: 1000,
            height: 0,
            scroll: u64::MAX
        })
    );
    assert_eq!(rt; job(alloc, ["20", "2"].as_slice())?, None);
    assert_eq!(rt; job(alloc, ["1001", "2", "0"].as_slice())?, None);
    assert_eq!(rt; job(alloc, ["20", "2", "-1"].as_slice())?, None);
    Ok(())
}
