//! An HTML page on a stream, without references to anything outside it.
#![tactic(auto)]

use crate::pages::album::{Album, Thumbnail};
use crate::pages::finding::{Answer, Finding, reason_in};
use crate::pages::info::{count_pictures, rate_of, shown_height, shown_width};
use crate::pages::page::Page;
use crate::pages::plot::{pictures_a_bar, put_buffer_plot, put_byte_plot};
use crate::pages::profile::{profile_of, put_level};
use crate::pages::reason::{put_remedy, put_sentence};
use crate::survey::{Sequence, Survey};
use base64::engine::general_purpose::STANDARD;
use std::alloc::Global;

/// The look of a page.
const STYLE: &str =
    "<style>body{font:16px/1.5 system-ui,sans-serif;max-width:60rem;margin:2rem auto;padding:0 1rem;color:#222;background:#fff}\
h1{font-size:1.4rem}h2{font-size:1.1rem;margin-top:2rem}pre{background:#f4f4f4;padding:.8rem;overflow-x:auto;white-space:pre-wrap}\
table{border-collapse:collapse}td,th{text-align:left;padding:.2rem 1rem .2rem 0;border-bottom:1px solid #ddd;font-weight:normal}\
.yes{color:#1e7d3c}.no{color:#b3261e}.other{color:#8a5a00}svg{width:100%;height:12rem;background:#f4f4f4}\
figure{display:inline-block;margin:0 1rem 1rem 0}figcaption{font-size:.85rem}\
.key span{display:inline-block;width:.8rem;height:.8rem;margin:0 .3rem 0 1rem}</style>";

/// The key of the plot of bytes.
const KEY: &str =
    "<p class=\"key\"><span style=\"background:#c0392b\"></span>IDR<span style=\"background:#e08e0b\"></span>I\
<span style=\"background:#2c6fbb\"></span>P<span style=\"background:#111\"></span>failure</p>";

/// What a page is made of, beside the survey.
#[derive(Clone, Copy)]
pub struct Sheets<'a> {
    /// The file's name.
    pub file: &'a str,
    pub answer: Answer,
    pub finding: Option<Finding>,
    /// The last line.
    pub verdict: &'a str,
    /// The lines that explain it.
    pub explanation: &'a str,
    /// The lines on the further rules, as `check --strict` writes them; no text where they were not judged, and then the page has no section on them.
    pub further: &'a str,
    /// A line a frame, with its digest.
    pub digests: &'a str,
}

/// The class of an answer's colour.
fn class_of(answer: Answer) -> &'static str {
    match answer {
        Ok(_) => "yes",
        Err(h264_base::Stop::No { .. }) => "no",
        Err(_) => "other",
    }
}

/// Adds a row of a table whose value is a number.
fn put_row(page: &mut Page, name: &str, value: u64) {
    page.put("<tr><th>");
    page.escaped(name);
    page.put("</th><td>");
    page.number(value);
    page.put("</td></tr>");
}

/// Adds the head of a page, and its verdict.
fn put_verdict(page: &mut Page, sheets: &Sheets<'_>) {
    page.put("<!DOCTYPE html><html lang=\"en\"><head><meta charset=\"utf-8\"><title>");
    page.escaped(sheets.file);
    page.put("</title>");
    page.put(STYLE);
    page.put("</head><body><h1>");
    page.escaped(sheets.file);
    page.put("</h1><p class=\"");
    page.put(class_of(sheets.answer));
    page.put("\"><strong>");
    page.escaped(sheets.verdict);
    page.put("</strong></p>");
    if sheets.explanation != "" {
        page.put("<pre>");
        page.escaped(sheets.explanation);
        page.put("</pre>");
    }
}

/// Adds the lines on the further rules, where they were judged.
fn put_further(page: &mut Page, sheets: &Sheets<'_>) {
    if sheets.further != "" {
        page.put("<h2>Further rules</h2><pre>");
        page.escaped(sheets.further);
        page.put("</pre>");
    }
}

/// Adds the table of a sequence parameter set.
fn put_set(page: &mut Page, set: &Sequence) {
    page.put("<table><tr><th>profile</th><td>");
    page.put(profile_of(set));
    page.put(" (");
    page.number(set.profile_idc);
    page.put(")</td></tr><tr><th>level</th><td>");
    put_level(page, set);
    page.put("</td></tr><tr><th>size</th><td>");
    page.number(shown_width(set));
    page.put(" x ");
    page.number(shown_height(set));
    page.put("</td></tr>");
    if let Some(rate) = rate_of(set) {
        page.put("<tr><th>frames a second</th><td>");
        page.thousandths(rate);
        page.put("</td></tr>");
    }
    put_row(page, "reference frames", set.max_num_ref_frames);
    if let Some(frames) = set.max_dec_frame_buffering {
        put_row(page, "picture buffer", frames);
    }
    page.put("</table>");
}

/// Adds the sets.
fn put_sets(page: &mut Page, survey: &Survey) {
    page.put("<h2>Parameter sets</h2>");
    for set in survey.sets.sequences.iter() {
        put_set(page, set);
    }
}

/// Adds the plots and the counts of pictures.
fn put_pictures(page: &mut Page, survey: &Survey, sheets: &Sheets<'_>) {
    let pictures = survey.pictures.list.as_slice();
    let counts = count_pictures(pictures);
    let failed = match sheets.finding {
        Some(finding) => finding.picture,
        None => None,
    };
    page.put("<h2>Bytes a picture</h2>");
    put_byte_plot(page, pictures, counts.largest, failed);
    page.put(KEY);
    page.put("<p>Pictures stand in decoding order, ");
    page.number(pictures_a_bar(pictures.len()) as u64);
    page.put(" a bar; the highest has ");
    page.number(counts.largest);
    page.put(" bytes.</p><table>");
    put_row(page, "pictures", pictures.len() as u64);
    put_row(page, "IDR", counts.idr);
    put_row(page, "I", counts.intra);
    put_row(page, "P", counts.predicted);
    put_row(page, "bytes", counts.bytes);
    page.put("</table><h2>Picture buffer</h2>");
    put_buffer_plot(
        page,
        survey.pictures.places_taken.as_slice(),
        pictures.len(),
    );
}

/// Adds the table of macroblocks.
fn put_macroblocks(page: &mut Page, survey: &Survey) {
    let counts = survey.macroblocks;
    page.put("<h2>Macroblocks</h2><table>");
    put_row(page, "I 4x4", counts.intra_4x4);
    put_row(page, "I 16x16", counts.intra_16x16);
    put_row(page, "I PCM", counts.pcm);
    put_row(page, "P 16x16", counts.inter_16x16);
    put_row(page, "P 16x8", counts.inter_16x8);
    put_row(page, "P 8x16", counts.inter_8x16);
    put_row(page, "P 8x8", counts.inter_8x8);
    put_row(page, "P skip", counts.skipped);
    page.put("</table>");
}

/// Adds a picture of a frame.
fn put_thumbnail(alloc: Global, page: &mut Page, thumbnail: &Thumbnail) {
    let Ok(text) = STANDARD.encode(alloc, thumbnail.bytes.as_slice()) else {
        return;
    };
    page.put("<figure><img alt=\"frame ");
    page.number(thumbnail.index);
    page.put("\" width=\"");
    page.number(thumbnail.width as u64);
    page.put("\" height=\"");
    page.number(thumbnail.height as u64);
    page.put("\" src=\"data:image/bmp;base64,");
    page.put(text.as_str());
    page.put("\"><figcaption>frame ");
    page.number(thumbnail.index);
    page.put("</figcaption></figure>");
}

/// Adds the pictures: the first frames of a yes, else the last ones before the failure.
fn put_frames(alloc: Global, page: &mut Page, album: &Album, sheets: &Sheets<'_>) {
    let is_yes = sheets.answer.is_ok();
    let some = if is_yes || album.last().is_empty() {
        album.first()
    } else {
        album.last()
    };
    page.put(if is_yes {
        "<h2>First frames</h2>"
    } else {
        "<h2>Last frames before the end</h2>"
    });
    for thumbnail in some.iter() {
        put_thumbnail(alloc, page, thumbnail);
    }
    page.put("<h2>Frames</h2><pre>");
    page.escaped(sheets.digests);
    page.put("</pre>");
}

/// Adds the paragraph on an input without a picture: what it is, and what to do about it.
fn put_no_pictures(alloc: Global, page: &mut Page, sheets: &Sheets<'_>) {
    page.put("<p>");
    match reason_in(sheets.finding) {
        Some(reason) => {
            put_sentence(page, reason);
            let mut remedy = Page::new(alloc);
            let has_remedy = put_remedy(&mut remedy, reason, Some(sheets.file));
            if remedy.is_short() {
                page.give_up();
            }
            if has_remedy {
                page.put(" <code>");
                page.escaped(remedy.as_str());
                page.put("</code>");
            }
        }
        None => page.put("No picture was read."),
    }
    page.put("</p>");
}

/// Adds a page on a stream. Where it has no picture a paragraph stands in the place of plots, counts and frames.
pub fn put_page(
    alloc: Global,
    page: &mut Page,
    survey: &Survey,
    album: &Album,
    sheets: &Sheets<'_>,
) {
    put_verdict(page, sheets);
    put_further(page, sheets);
    if !survey.sets.sequences.is_empty() {
        put_sets(page, survey);
    }
    if survey.pictures.list.is_empty() {
        put_no_pictures(alloc, page, sheets);
    } else {
        put_pictures(page, survey, sheets);
        put_macroblocks(page, survey);
        put_frames(alloc, page, album, sheets);
    }
    page.put("</body></html>\n");
}
