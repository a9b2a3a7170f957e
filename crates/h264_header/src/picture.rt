//! Where a picture begins (7.4.1.2.4).
#![tactic(auto)]

ghost use Rattle.std.specs.Prelude.{◌≡◌};
ghost use Rattle.h264_header.specs.Picture.{begins_picture, picture_elements, lsb_differs, deltas_differ, idr_differs, idr_pic_ids_differ, reference_differs};

use crate::header::{Header, PicOrderCnt, PictureElements};
use h264_bits::Found;

/// Whether nal_ref_idc differs, and is 0 for one of them.
fn reference_differs(old: u32, new: u32) -> bool
    ensures { result ≡ reference_differs old new }
{
    old != new && (old == 0 || new == 0)
}

/// Whether the elements of type 0 differ.
fn lsb_differs(old: PicOrderCnt, new: PicOrderCnt) -> bool
    ensures { result ≡ lsb_differs old new }
{
    match (old, new) {
        (
            PicOrderCnt::Lsb {
                pic_order_cnt_lsb: old_lsb,
                delta_pic_order_cnt_bottom: old_bottom,
            },
            PicOrderCnt::Lsb {
                pic_order_cnt_lsb: new_lsb,
                delta_pic_order_cnt_bottom: new_bottom,
            },
        ) => old_lsb != new_lsb || old_bottom != new_bottom,
        _ => false,
    }
}

/// Whether the elements of type 1 differ.
fn deltas_differ(old: PicOrderCnt, new: PicOrderCnt) -> bool
    ensures { result ≡ deltas_differ old new }
{
    match (old, new) {
        (
            PicOrderCnt::Deltas {
                top: old_top,
                bottom: old_bottom,
            },
            PicOrderCnt::Deltas {
                top: new_top,
                bottom: new_bottom,
            },
        ) => old_top != new_top || old_bottom != new_bottom,
        _ => false,
    }
}

/// Whether one of them is of an IDR picture and the other is not.
fn idr_differs(old: Option<Found<u32>>, new: Option<Found<u32>>) -> bool
    ensures { result ≡ idr_differs old new }
{
    old.is_some() != new.is_some()
}

/// Whether both are of IDR pictures, and idr_pic_id differs.
fn idr_pic_ids_differ(old: Option<Found<u32>>, new: Option<Found<u32>>) -> bool
    ensures { result ≡ idr_pic_ids_differ old new }
{
    match (old, new) {
        (Some(old), Some(new)) => old.value != new.value,
        _ => false,
    }
}

/// The elements of a slice header by which a picture begins.
pub fn picture_elements(header: &Header) -> PictureElements
    ensures { result ≡ picture_elements header.now }
{
    PictureElements {
        nal_ref_idc: header.nal_ref_idc,
        pic_parameter_set_id: header.pic_parameter_set_id.value,
        frame_num: header.frame_num.value,
        idr_pic_id: header.idr_pic_id,
        pic_order_cnt: header.pic_order_cnt,
    }
}

/// Whether a slice is the first of a picture, by these elements of the slice before it and its own.
pub fn begins_picture(old: &PictureElements, new: &PictureElements) -> bool
    ensures { result ≡ begins_picture old.now new.now }
{
    let frame_num = old.frame_num != new.frame_num;
    let set = old.pic_parameter_set_id != new.pic_parameter_set_id;
    let reference = reference_differs(old.nal_ref_idc, new.nal_ref_idc);
    let lsb = lsb_differs(old.pic_order_cnt, new.pic_order_cnt);
    let deltas = deltas_differ(old.pic_order_cnt, new.pic_order_cnt);
    let idr = idr_differs(old.idr_pic_id, new.idr_pic_id);
    let id = idr_pic_ids_differ(old.idr_pic_id, new.idr_pic_id);
    frame_num | set | reference | lsb | deltas | idr | id
}
