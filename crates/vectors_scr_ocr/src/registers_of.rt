// The SCR and the OCR, encoded and decoded.
use reg_scr_ocr::ocr::{self, Ocr};
use reg_scr_ocr::scr::{self, Scr};
use std::io;
use vectors_print::{Hex, Refused, encoded};

const SCRS: [&[u8]; 3] = [
    &[0x02, 0x01, 0, 0, 0, 0, 0, 0],
    &[0x02, 0x05, 0xFF, 0xFF, 0xFF, 0xFF, 0xFF, 0xFF],
    &[0x02, 0x01, 0, 0, 0, 0, 0],
];

pub fn scrs(rt: &impl Print) -> io::Result<()> {
    for (sd_spec, sd_bus_widths) in [(2, 1), (2, 5), (16, 1)] {
        let mut out = [0u8; 17];
        let fields = Scr {
            sd_spec,
            sd_bus_widths,
            ..Scr::default()
        };
        let written = scr::encode(fields, &mut out);
        println!(rt; "SCR {}", encoded(written, &out))?;
    }
    for s in SCRS {
        print!(rt; "SCR {}", Hex(s))?;
        match scr::decode(s) {
            Ok(
                Scr {
                    sd_spec,
                    sd_bus_widths,
                    ..
                },
            ) => println!(rt; " SD_SPEC {sd_spec:02X} SD_BUS_WIDTHS {sd_bus_widths:02X}")?,
            Err(refusal) => println!(rt; "{}", Refused(refusal))?,
        }
    }
    Ok(())
}

const OCRS: [&[u8]; 3] = [&[0x80, 0xFF, 0x80, 0], &[0xBF, 0xFF, 0xFF, 0xFF], b""];

pub fn ocrs(rt: &impl Print) -> io::Result<()> {
    for (busy, capacity, window) in [
        (false, false, 0x1FF),
        (true, false, 0x1FF),
        (true, true, 0x1FF),
        (true, false, 0x200),
    ] {
        let mut out = [0u8; 17];
        let fields = Ocr {
            busy,
            capacity,
            window,
        };
        let written = ocr::encode(fields, &mut out);
        println!(rt; "OCR {}", encoded(written, &out))?;
    }
    for s in OCRS {
        print!(rt; "OCR {}", Hex(s))?;
        match ocr::decode(s) {
            Ok(Ocr { window, .. }) => println!(rt; " window {window:04X}")?,
            Err(refusal) => println!(rt; "{}", Refused(refusal))?,
        }
    }
    Ok(())
}
