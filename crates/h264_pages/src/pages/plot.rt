//! The plots of a page, in SVG.
#![tactic(auto)]

ghost use Rattle.std.specs.Prelude.{◌≡◌, ◌+◌, ◌*◌, ◌/◌, ◌<◌, ◌≤◌};

use crate::pages::page::Page;
use crate::survey::{Picture, PictureKind};

/// The width of a plot, in its own units.
const WIDTH: u64 = 1000;

/// The height of a plot.
const HEIGHT: u64 = 200;

/// The most bars that a plot has; of more pictures each bar shows the largest of some.
const MOST_BARS: usize = 500;

/// The colour of a kind of picture.
fn colour_of(kind: PictureKind) -> &'static str {
    match kind {
        PictureKind::Idr => "#c0392b",
        PictureKind::I => "#e08e0b",
        PictureKind::P => "#2c6fbb",
    }
}

/// A bar of a plot.
#[derive(Clone, Copy)]
struct Bar {
    /// Its number among the bars, from 0.
    place: u64,
    /// How many bars there are.
    count: u64,
    value: u64,
    /// The greatest value of all bars.
    most: u64,
}

/// Adds a bar as a rectangle of this colour.
fn put_bar(page: &mut Page, bar: Bar, colour: &str) {
    let count = bar.count.max(1);
    let left = bar.place.saturating_mul(WIDTH) / count;
    let right = bar.place.saturating_add(1).saturating_mul(WIDTH) / count;
    let height = bar.value.saturating_mul(HEIGHT) / bar.most.max(1);
    page.put("<rect x=\"");
    page.number(left);
    page.put("\" y=\"");
    page.number(HEIGHT.saturating_sub(height));
    page.put("\" width=\"");
    page.number(right.saturating_sub(left).max(1));
    page.put("\" height=\"");
    page.number(height.max(1));
    page.put("\" fill=\"");
    page.put(colour);
    page.put("\"/>");
}

/// Adds the head of a plot.
fn open_plot(page: &mut Page, label: &str) {
    page.put("<svg role=\"img\" aria-label=\"");
    page.escaped(label);
    page.put("\" viewBox=\"0 0 1000 200\" preserveAspectRatio=\"none\">");
}

/// Adds the line of a failure at a bar.
fn put_mark(page: &mut Page, place: u64, count: u64) {
    let x = place.saturating_mul(WIDTH) / count.max(1);
    page.put("<rect class=\"mark\" x=\"");
    page.number(x);
    page.put("\" y=\"0\" width=\"4\" height=\"200\" fill=\"#111\"/>");
}

/// The picture of some that has the most bytes.
fn largest_of(pictures: &[Picture]) -> Option<Picture> {
    let mut found: Option<Picture> = None;
    for picture in pictures.iter() {
        let is_larger = match found {
            Some(best) => picture.bytes > best.bytes,
            None => true,
        };
        if is_larger {
            found = Some(*picture);
        }
    }
    found
}

/// How many pictures a bar stands for, so that the bars are few, and no fewer than that takes.
pub fn pictures_a_bar(pictures: usize) -> usize
    ensures some { 0 < result }
    ensures few { pictures < 500 * result }
    ensures fine { 500 * result ≤ pictures + 500 }
{
    pictures / MOST_BARS + 1
}

/// How many bars so many pictures have.
fn bars(pictures: usize, group: usize) -> u64
    requires { 0 < group }
{
    let whole = (pictures / group) as u64;
    if pictures % group == 0 {
        return whole;
    }
    whole.saturating_add(1)
}

/// Adds the plot of bytes a picture, with the picture of a failure marked.
pub fn put_byte_plot(page: &mut Page, pictures: &[Picture], most: u64, failed: Option<u64>) {
    let group = pictures_a_bar(pictures.len());
    let count = bars(pictures.len(), group);
    open_plot(page, "bytes a picture");
    let mut place = 0;
    for some in pictures.chunks(group) {
        if let Some(picture) = largest_of(some) {
            let bar = Bar {
                place,
                count,
                value: picture.bytes,
                most,
            };
            put_bar(page, bar, colour_of(picture.kind));
        }
        place = place.saturating_add(1);
    }
    if let Some(picture) = failed {
        put_mark(page, picture / group as u64, count);
    }
    page.put("</svg>");
}

/// The most of these numbers of places.
fn most_taken(places: &[u64]) -> u64 {
    places.iter().copied().max().unwrap_or(0)
}

/// Adds the plot of the places that are taken in the picture buffer, picture by picture, of so many pictures; none at one of which that was not noted.
pub fn put_buffer_plot(page: &mut Page, places: &[u64], pictures: usize) {
    let group = pictures_a_bar(pictures);
    let count = bars(pictures, group);
    let most = most_taken(places);
    open_plot(page, "places taken in the picture buffer");
    let mut waiting = places.chunks(group);
    for place in 0..count {
        let value = match waiting.next() {
            Some(some) => most_taken(some),
            None => 0,
        };
        let bar = Bar {
            place,
            count,
            value,
            most,
        };
        put_bar(page, bar, "#3f8f5f");
    }
    page.put(
        "</svg><p>Places that are taken while a picture is decoded, by frames that wait for output or are held for reference, \
        and by frames of missing numbers: at most ",
    );
    page.number(most);
    page.put(".</p>");
}
