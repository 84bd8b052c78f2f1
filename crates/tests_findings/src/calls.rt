//! The public calls of mk_cert, mk_find, mk_repair, mk_claims, mk_sentences and mk_since over a
//! subject, with their results as texts.

use mk_cert::{CertFault, verify};
use mk_cert_text::{certificate_text, read_certificate};
use mk_claims::{all_claims, offers_alone, open_word};
use mk_find::finding_laws::no_findings;
use mk_find::{Finding, certify, findings, hidden_findings, judge, races, static_findings};
use mk_repair::{Obstacle, Words, lines_text, obstacle_of, words_of};
use mk_sentences::sentences;
use mk_since::{named_files, past_of};
use mk_subject::{Subject, counts};
use std::alloc::Global;
use std::test::Fail;

/// A public call.
#[derive(Drop)]
pub(crate) enum Call<'a> {
    /// `static_findings`.
    Static,
    /// `races`.
    Races,
    /// `counts`.
    Counts,
    /// `findings`.
    Findings,
    /// `certify`, if there are no findings.
    Certify,
    /// `judge`.
    Judge,
    /// `words_of` for the findings of `findings`, then `lines_text`.
    Lines,
    /// `obstacle_of` for the findings of `findings`.
    Obstacle,
    /// `all_claims` for the findings of `findings`, then `offers_alone`, and `open_word` of each.
    Offers,
    /// `sentences` for the findings of `findings`.
    Sentences,
    /// `past_of`, and whether that owns this file.
    Owns(&'a str),
    /// `past_of`, then `named_files` for the same build.
    Named,
    /// `verify`, with the text of a certificate.
    Verify(&'a str),
}

/// The findings, each on a line.
fn lines_of(alloc: Global, found: &[Finding]) -> Result<String, Fail> {
    let mut out = String::new(alloc);
    for finding in found {
        out.push_str(format!(in alloc; "{finding}\n")?.as_str())?;
    }
    Ok(out)
}

/// The findings of `static_findings`.
fn found_alone(alloc: Global, subject: &Subject<'_>) -> Result<String, Fail> {
    let found = static_findings(alloc, subject)?;
    lines_of(alloc, &found)
}

/// The findings of `races`.
fn found_by_order(alloc: Global, subject: &Subject<'_>) -> Result<String, Fail> {
    let found = races(alloc, subject)?;
    lines_of(alloc, &found)
}

/// The findings of `findings`.
fn found(alloc: Global, subject: &Subject<'_>) -> Result<String, Fail> {
    let found = findings(alloc, subject)?;
    lines_of(alloc, &found)
}

/// The counts of recipes and reads by `counts`.
fn counted(alloc: Global, subject: &Subject<'_>) -> Result<String, Fail> {
    let (recipes, reads) = counts(subject);
    Ok(format!(in alloc; "{recipes} recipes {reads} reads")?)
}

/// The certificate of `certify` if there are no findings, else the findings.
fn certified(alloc: Global, subject: &Subject<'_>) -> Result<String, Fail> {
    no_findings();
    match judge(alloc, subject)? {
        Ok(_) => Ok(certificate_text(alloc, &certify(alloc, subject)?)?),
        Err(found) => lines_of(alloc, &found),
    }
}

/// The certificate of `judge`, or its findings.
fn judged(alloc: Global, subject: &Subject<'_>) -> Result<String, Fail> {
    match judge(alloc, subject)? {
        Ok(certificate) => Ok(certificate_text(alloc, &certificate)?),
        Err(found) => lines_of(alloc, &found),
    }
}

/// The lines for the findings of `findings`, or `none` if one of them gives no word.
fn repaired(alloc: Global, subject: &Subject<'_>) -> Result<String, Fail> {
    let found = findings(alloc, subject)?;
    match words_of(alloc, subject, &found)? {
        Some(words) => Ok(lines_text(alloc, &words)?),
        None => Ok(String::from_str(alloc, "none")?),
    }
}

/// Why one of the findings of `findings` stops a repair, on a line, and the lines for the others.
fn stopped(alloc: Global, subject: &Subject<'_>) -> Result<String, Fail> {
    let found = findings(alloc, subject)?;
    let Obstacle { why, lines } = obstacle_of(alloc, subject, &found)?;
    Ok(format!(in alloc; "{why}\n{lines}")?)
}

/// The lines for the findings of `findings`, and for those of `hidden_findings`, but for lines on
/// cycles.
fn offered(alloc: Global, subject: &Subject<'_>) -> Result<String, Fail> {
    let found = findings(alloc, subject)?;
    let hidden = hidden_findings(alloc, subject)?;
    let claims = all_claims(alloc, subject, &found, &hidden)?;
    let mut words = Words::new(alloc);
    for offer in &offers_alone(alloc, subject, &claims)? {
        if let Some(word) = open_word(offer) {
            words.insert(alloc, word)?;
        }
    }
    Ok(lines_text(alloc, &words)?)
}

/// The findings of `findings`, and those of `hidden_findings`, in sentences.
fn told(alloc: Global, subject: &Subject<'_>) -> Result<String, Fail> {
    let found = findings(alloc, subject)?;
    let hidden = hidden_findings(alloc, subject)?;
    Ok(String::from_utf8(sentences(alloc, subject, &found, &hidden)?)?)
}

/// A fault's number and names.
fn fault_words(alloc: Global, fault: &CertFault) -> Result<String, Fail> {
    let text = match fault {
        CertFault::OtherGoals => format!(in alloc; "73")?,
        CertFault::NoWay { recipe, file } => format!(in alloc; "74 {recipe} {file}")?,
        CertFault::BadWay { recipe, file } => format!(in alloc; "75 {recipe} {file}")?,
        CertFault::Static(finding) => format!(in alloc; "76 {finding}")?,
        CertFault::Memory => format!(in alloc; "memory")?,
    };
    Ok(text)
}

/// `accepted` if `verify` accepts the certificate, else the fault.
fn verified(alloc: Global, subject: &Subject<'_>, text: &str) -> Result<String, Fail> {
    let certificate = read_certificate(alloc, text.as_bytes())?;
    match verify(alloc, subject, &certificate) {
        Ok(()) => Ok(String::from_str(alloc, "accepted")?),
        Err(fault) => fault_words(alloc, &fault),
    }
}

/// Whether the build has this file itself, by what `past_of` keeps.
fn owned(alloc: Global, subject: &Subject<'_>, file: &str) -> Result<String, Fail> {
    let found = findings(alloc, subject)?;
    let past = past_of(alloc, subject, &found)?;
    let text = if past.owns(file) {
        "owned"
    } else {
        "not owned"
    };
    Ok(String::from_str(alloc, text)?)
}

/// The files to remove between two makes of the same build, each on a line.
fn named(alloc: Global, subject: &Subject<'_>) -> Result<String, Fail> {
    let found = findings(alloc, subject)?;
    let past = past_of(alloc, subject, &found)?;
    let names = named_files(alloc, &past, subject)?;
    let mut out = String::new(alloc);
    for name in names.as_slice() {
        out.push_str(name.as_str())?;
        out.push_str("\n")?;
    }
    Ok(out)
}

/// The result of a call.
pub(crate) fn answer(
    alloc: Global,
    subject: &Subject<'_>,
    call: &Call<'_>,
) -> Result<String, Fail> {
    match call {
        Call::Static => found_alone(alloc, subject),
        Call::Races => found_by_order(alloc, subject),
        Call::Counts => counted(alloc, subject),
        Call::Findings => found(alloc, subject),
        Call::Certify => certified(alloc, subject),
        Call::Judge => judged(alloc, subject),
        Call::Lines => repaired(alloc, subject),
        Call::Obstacle => stopped(alloc, subject),
        Call::Offers => offered(alloc, subject),
        Call::Sentences => told(alloc, subject),
        Call::Owns(file) => owned(alloc, subject, file),
        Call::Named => named(alloc, subject),
        Call::Verify(text) => verified(alloc, subject, text),
    }
}
