//! Words that ask for something, and words that do not.
use rp_words::{Asked, Form, RacePlan, WordsFault, read_words};
use std::alloc::Global;
use std::test::Fail;

fn answer(alloc: Global, texts: &[&str]) -> Result<Result<Asked, WordsFault>, Fail> {
    let mut words = Vec::new(alloc);
    for text in texts {
        words.push(String::from_str(alloc, *text)?)?;
    }
    Ok(read_words(alloc, &words))
}

#[test]
fn each_command(rt: HostRuntime) -> Result<(), Fail> {
    let alloc = rt.alloc();
    let race = RacePlan {
        workers: 8,
        loss: 50,
        salt: 1,
        quota: 65_536,
        form: Form::Json,
    };
    assert!(rt; answer(alloc, &["run", "--form", "summary"])? == Ok(Asked::Run(Form::Summary)));
    assert!(rt;
        answer(
            alloc,
            &[
                "race",
                "--loss=50",
                "--form=json",
                "--workers",
                "008",
                "--quota",
                "65536"
            ]
        )? == Ok(Asked::Race(race))
    );
    let script = Asked::Gen {
        number: 7,
        size: 20_000,
    };
    assert!(rt; answer(alloc, &["gen", "007", "20000"])? == Ok(script));
    Ok(())
}

#[test]
fn outside_the_table(rt: HostRuntime) -> Result<(), Fail> {
    let alloc = rt.alloc();
    let usage = Err(WordsFault::Usage);
    assert!(rt; answer(alloc, &["run", "--"])? == usage);
    assert!(rt; answer(alloc, &["run", "--form", "text", "--form", "text"])? == usage);
    assert!(rt; answer(alloc, &["gen", "7", "20001"])? == usage);
    assert!(rt; answer(alloc, &["race", "--loss", "51"])? == usage);
    assert!(rt; answer(alloc, &["race", "--quota", "0"])? == usage);
    Ok(())
}
